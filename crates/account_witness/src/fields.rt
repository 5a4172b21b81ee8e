// The fields of a witness lock by their names; zero where the bytes end before them.
// A function for each, over `u8_at` and its like, so that each field has the name that its definition has.
ghost use Rattle.std.specs.Prelude.{◌≡◌, ◌+◌, ◌≤◌, length};
ghost use Rattle.account_witness.specs.Fields.{witness_magic_of, witness_version_of, operation_of, proof_count_of, witness_reserved_of, witness_sequence_of, proof_slot_at, proof_reserved_at, proof_length_at, proof_header_length};

use crate::offsets::{
    PROOF_COUNT_OFFSET, PROOF_LENGTH_OFFSET, PROOF_RESERVED_OFFSET, WITNESS_MAGIC_OFFSET,
    WITNESS_OPERATION_OFFSET, WITNESS_RESERVED_OFFSET, WITNESS_SEQUENCE_OFFSET,
    WITNESS_VERSION_OFFSET,
};
use octets::{u8_at, u16_at, u32_at, u64_at};

pub(crate) fn witness_magic_of(witness: &[u8]) -> u32
    ensures { result ≡ witness_magic_of witness.now }
{
    u32_at(witness, WITNESS_MAGIC_OFFSET)
}

pub(crate) fn witness_version_of(witness: &[u8]) -> u8
    ensures { result ≡ witness_version_of witness.now }
{
    u8_at(witness, WITNESS_VERSION_OFFSET)
}

pub fn operation_of(witness: &[u8]) -> u8
    ensures { result ≡ operation_of witness.now }
{
    u8_at(witness, WITNESS_OPERATION_OFFSET)
}

pub fn proof_count_of(witness: &[u8]) -> u8
    ensures { result ≡ proof_count_of witness.now }
{
    u8_at(witness, PROOF_COUNT_OFFSET)
}

pub(crate) fn witness_reserved_of(witness: &[u8]) -> u8
    ensures { result ≡ witness_reserved_of witness.now }
{
    u8_at(witness, WITNESS_RESERVED_OFFSET)
}

pub fn witness_sequence_of(witness: &[u8]) -> u64
    ensures { result ≡ witness_sequence_of witness.now }
{
    u64_at(witness, WITNESS_SEQUENCE_OFFSET)
}

// The fields of the proof whose first 8 bytes stand at `offset`.
pub(crate) fn proof_slot_at(witness: &[u8], offset: usize) -> u16
    ensures { result ≡ proof_slot_at witness.now offset }
{
    u16_at(witness, offset)
}

pub(crate) fn proof_reserved_at(witness: &[u8], offset: usize) -> u16
    requires { offset + proof_header_length ≤ length witness.now }
    ensures { result ≡ proof_reserved_at witness.now offset }
{
    u16_at(witness, offset + PROOF_RESERVED_OFFSET)
}

pub(crate) fn proof_length_at(witness: &[u8], offset: usize) -> u32
    requires { offset + proof_header_length ≤ length witness.now }
    ensures { result ≡ proof_length_at witness.now offset }
{
    u32_at(witness, offset + PROOF_LENGTH_OFFSET)
}
