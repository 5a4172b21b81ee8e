// The lent table: whether a scene, its length aside, leaves it, and what it and the store hold.
#![tactic(auto)]

mod entries; // entries.rt
mod lent; // lent.rt
mod places; // places.rt
mod validity; // validity.rt

pub use self::lent::LentSlices;
pub use self::places::{
    CellPlaces, dep_cell, dep_count, digit_count, input_capacity, input_cell, input_count,
    input_group, input_since, output_capacity, output_cell, output_count, script, transaction_hash,
    verdict, witness, witness_count,
};
pub use self::validity::table_valid;
