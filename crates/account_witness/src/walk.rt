// The walk over the proofs of a witness lock, a step for each.
ghost use Rattle.std.specs.Prelude.{◌≡◌, Ok};
ghost use Rattle.protocol.specs.Rows.{decide};
ghost use Rattle.account_witness.specs.Fields.{witness_header_length};
ghost use Rattle.account_witness.specs.Walk.{proof_step, first_proof, proofs_layout_rows};

use crate::fields::{proof_length_at, proof_reserved_at, proof_slot_at};
use crate::offsets::PROOF_HEADER_LEN;
use octets::fits;
use protocol::{ACCOUNT_WITNESS_HEADER_LEN, ProtocolError, require};

// Where the next proof begins, and the least slot that it may have.
#[derive(Drop)]
pub struct ProofCursor {
    pub offset: usize,
    pub least: u32,
}

// A proof's slot, and the place of its bytes.
#[derive(Drop)]
pub struct Proof {
    pub slot: u16,
    pub start: usize,
    pub len: usize,
}

// The cursor behind the header.
pub fn first_proof() -> ProofCursor
    ensures { result ≡ first_proof }
{
    ProofCursor {
        offset: ACCOUNT_WITNESS_HEADER_LEN,
        least: 0,
    }
}

// The proof at the cursor, and the cursor behind it.
#[tactic(auto, unfolding(protocol::specs::Rows::decide, crate::specs::Walk::proof_layout_rows, crate::specs::Walk::proof_at, crate::specs::Walk::proof_cursor_behind, crate::specs::Walk::proof_step))]
pub fn next_proof(
    witness: &[u8],
    cursor: ProofCursor,
) -> Result<(Proof, ProofCursor), ProtocolError>
    ensures { result ≡ proof_step witness.now cursor }
{
    let ProofCursor { offset, least } = cursor;
    let invalid = ProtocolError::InvalidWitness;
    require(fits(witness.len(), offset, PROOF_HEADER_LEN), invalid)?;
    let slot = proof_slot_at(witness, offset);
    let start = offset + PROOF_HEADER_LEN;
    let len = proof_length_at(witness, offset) as usize;
    require(proof_reserved_at(witness, offset) == 0, invalid)?;
    require(fits(witness.len(), start, len), invalid)?;
    require(1 <= len, invalid)?;
    require(least <= u32::from(slot), invalid)?;
    let next = ProofCursor {
        offset: start + len,
        least: u32::from(slot) + 1,
    };
    Ok((Proof { slot, start, len }, next))
}

// The checks of `count` proofs behind the header, and that no byte follows the last.
#[tactic(auto, using(crate::proofs::WalkLaws::walk_step, crate::proofs::WalkLaws::walk_none))]
pub(crate) fn check_proofs(witness: &[u8], count: u8) -> Result<(), ProtocolError>
    ensures { result ≡ decide (Ok tt) (proofs_layout_rows witness.now count witness_header_length 0) }
{
    let mut cursor = first_proof();
    for _ in 0..count {
        (_, cursor) = next_proof(witness, cursor)?;
    }
    require(
        cursor.offset == witness.len(),
        ProtocolError::InvalidWitness,
    )
}
