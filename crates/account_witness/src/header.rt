// The header of a witness lock.
ghost use Rattle.std.specs.Prelude.{◌≡◌, Ok};
ghost use Rattle.protocol.specs.Rows.{decide};
ghost use Rattle.account_witness.specs.Header.{witness_header_rows, witness_header_of, read_witness_header};

use crate::fields::{
    operation_of, proof_count_of, witness_magic_of, witness_reserved_of, witness_sequence_of,
    witness_version_of,
};
use protocol::{
    ACCOUNT_WITNESS_HEADER_LEN, ACCOUNT_WITNESS_MAGIC, ACCOUNT_WITNESS_MAX_LOCK_LEN,
    ACCOUNT_WITNESS_VERSION, ProtocolError, is_operation, require,
};

#[derive(Drop)]
pub struct AccountWitnessHeader {
    pub operation: u8,
    pub proof_count: u8,
    pub state_sequence: u64,
}

#[tactic(auto, unfolding(protocol::specs::Rows::decide, crate::specs::Header::witness_header_rows))]
pub fn check_witness_header(witness: &[u8]) -> Result<(), ProtocolError>
    ensures { result ≡ decide (Ok tt) (witness_header_rows witness.now) }
{
    let invalid = ProtocolError::InvalidWitness;
    require(ACCOUNT_WITNESS_HEADER_LEN <= witness.len(), invalid)?;
    require(witness.len() <= ACCOUNT_WITNESS_MAX_LOCK_LEN, invalid)?;
    require(witness_magic_of(witness) == ACCOUNT_WITNESS_MAGIC, invalid)?;
    require(
        witness_version_of(witness) == ACCOUNT_WITNESS_VERSION,
        invalid,
    )?;
    require(is_operation(operation_of(witness)), invalid)?;
    require(witness_reserved_of(witness) == 0, invalid)
}

// The fields of a header.
#[tactic(auto, unfolding(crate::specs::Header::witness_header_of))]
pub(crate) fn header_at(witness: &[u8]) -> AccountWitnessHeader
    ensures { result ≡ witness_header_of witness.now }
{
    AccountWitnessHeader {
        operation: operation_of(witness),
        proof_count: proof_count_of(witness),
        state_sequence: witness_sequence_of(witness),
    }
}

// The header of a witness lock, or 22.
#[tactic(auto, unfolding(crate::specs::Header::read_witness_header))]
pub fn parse_witness_header(witness: &[u8]) -> Result<AccountWitnessHeader, ProtocolError>
    ensures { result ≡ read_witness_header witness.now }
{
    check_witness_header(witness)?;
    Ok(header_at(witness))
}
