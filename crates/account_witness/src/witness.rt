// The whole witness lock, of at most 16 proofs.
ghost use Rattle.std.specs.Prelude.{◌≡◌};
ghost use Rattle.account_witness.specs.Witness.{witness_fault, read_witness};

use crate::fields::proof_count_of;
use crate::header::{AccountWitnessHeader, check_witness_header, header_at};
use crate::walk::check_proofs;
use protocol::{AUTHENTICATOR_MAX_COUNT, ProtocolError, require};

#[tactic(auto, using(protocol::proofs::AllPass::deciding), unfolding(protocol::specs::Rows::decide, crate::specs::Witness::witness_fault, crate::specs::Witness::witness_rows))]
fn check_witness(witness: &[u8]) -> Result<(), ProtocolError>
    ensures { result ≡ witness_fault witness.now }
{
    check_witness_header(witness)?;
    let count = proof_count_of(witness);
    require(
        count as usize <= AUTHENTICATOR_MAX_COUNT,
        ProtocolError::InvalidWitness,
    )?;
    check_proofs(witness, count)
}

// The header of a witness lock whose every part passes.
#[tactic(auto, unfolding(crate::specs::Witness::read_witness))]
pub fn validate_witness(witness: &[u8]) -> Result<AccountWitnessHeader, ProtocolError>
    ensures { result ≡ read_witness witness.now }
{
    check_witness(witness)?;
    Ok(header_at(witness))
}
