// The witnesses of the input group, and the hash over the transaction and its witnesses.
#![tactic(auto)]

mod hashed; // hashed.rt
mod witnesses; // witnesses.rt
mod transaction; // transaction.rt

pub use self::transaction::{canonical_group_sighash, sighash_with};
pub use self::witnesses::{check_first_witness, check_others, first_witness};
