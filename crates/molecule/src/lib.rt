// Molecule tables of three fields, read loosely as the lock reads them: the lock of a witness, the args of a script, and
// the canonical witness.
#![tactic(auto)]

mod fields; // fields.rt
mod table; // table.rt
mod bytes; // bytes.rt
mod canonical; // canonical.rt

pub use self::bytes::{
    args_of, check_script_args, check_witness_lock, lock_of, molecule_bytes, script_args,
    witness_lock,
};
pub use self::canonical::{canonical_head, canonical_witness};
pub use self::fields::{second_field, third_field};
pub use self::table::{TableFields, check_table, table3_fields};
