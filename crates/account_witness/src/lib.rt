// The reader of witness locks: the header, the walk over the proofs, the whole.
#![tactic(auto)]

mod fields; // fields.rt
mod header; // header.rt
mod offsets; // offsets.rt
mod walk; // walk.rt
mod witness; // witness.rt

pub use self::fields::{operation_of, proof_count_of, witness_sequence_of};
pub use self::header::{AccountWitnessHeader, check_witness_header, parse_witness_header};
pub use self::offsets::{
    PROOF_COUNT_OFFSET, PROOF_HEADER_LEN, PROOF_LENGTH_OFFSET, PROOF_RESERVED_OFFSET,
    WITNESS_MAGIC_OFFSET, WITNESS_OPERATION_OFFSET, WITNESS_RESERVED_OFFSET,
    WITNESS_SEQUENCE_OFFSET, WITNESS_VERSION_OFFSET,
};
pub use self::walk::{Proof, ProofCursor, first_proof, next_proof};
pub use self::witness::validate_witness;
