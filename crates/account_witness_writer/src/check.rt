// The writer's refusals: slices that disagree, the operation, the proofs, a short buffer.
ghost use Rattle.std.specs.Prelude.{◌≡◌, leb, eqb};
ghost use Rattle.std.specs.List.{list_all};
ghost use Rattle.octets.specs.Lists.{sum};
ghost use Rattle.protocol.specs.Write.{write_answer};
ghost use Rattle.account_witness_writer.specs.Writer.{witness_total, witness_writer_fault};

use account_witness::PROOF_HEADER_LEN;
use octets::is_rising;
use protocol::{
    ACCOUNT_WITNESS_HEADER_LEN, ACCOUNT_WITNESS_MAX_LOCK_LEN, AUTHENTICATOR_MAX_COUNT,
    ProtocolError, is_operation, require,
};

// Whether the lengths add up to `total`. What is left of it never falls below zero.
#[tactic(auto, using(crate::proofs::WriterLaws::sum_turn, crate::proofs::WriterLaws::sum_end))]
fn adds_up(lengths: &[u32], total: usize) -> bool
    ensures { result ≡ eqb (sum lengths.now) total }
{
    let mut left = total;
    for &length in lengths {
        let Some(rest) = left.checked_sub(length as usize) else {
            return false;
        };
        left = rest;
    }
    left == 0
}

// Whether no proof is empty.
fn all_filled(lengths: &[u32]) -> bool
    ensures { result ≡ list_all (leb 1) lengths.now }
{
    lengths.iter().all(|&length| 1 <= length)
}

// The length of a witness lock, or the writer's refusal: that of a buffer of `room` bytes comes last.
#[tactic(auto, using(crate::proofs::WriterLaws::every_is_all), unfolding(protocol::specs::Rows::decide, protocol::specs::Write::write_fault, protocol::specs::Write::write_answer, crate::specs::Writer::lent_proof_rows, crate::specs::Writer::witness_writer_rows, crate::specs::Writer::witness_writer_fault))]
pub(crate) fn written_len(
    operation: u8,
    slots: &[u16],
    lengths: &[u32],
    bytes: &[u8],
    room: usize,
) -> Result<usize, ProtocolError>
    ensures { result ≡ write_answer
        (witness_writer_fault operation slots.now lengths.now bytes.now room)
        (witness_total slots.now bytes.now) }
{
    let disagree = ProtocolError::SlicesDisagree;
    let invalid = ProtocolError::InvalidWitness;
    require(slots.len() == lengths.len(), disagree)?;
    require(adds_up(lengths, bytes.len()), disagree)?;
    require(is_operation(operation), ProtocolError::InvalidOperation)?;
    require(slots.len() <= AUTHENTICATOR_MAX_COUNT, invalid)?;
    require(all_filled(lengths), invalid)?;
    let len = ACCOUNT_WITNESS_HEADER_LEN + (PROOF_HEADER_LEN * slots.len() + bytes.len());
    require(len <= ACCOUNT_WITNESS_MAX_LOCK_LEN, invalid)?;
    require(is_rising(slots), invalid)?;
    require(len <= room, ProtocolError::BufferTooShort)?;
    Ok(len)
}
