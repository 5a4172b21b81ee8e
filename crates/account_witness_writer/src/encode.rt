// The writer of witness locks.
ghost use Rattle.std.specs.Prelude.{◌≡◌};
ghost use Rattle.account_witness_writer.specs.Writer.{witness_written, witness_stored};

use crate::check::written_len;
use crate::store::{store_header, store_proofs};
use protocol::ProtocolError;

// Writes a witness lock and answers its length. Proof i has the slot slots[i] and the next lengths[i] bytes of `bytes`.
#[tactic(auto, using(crate::proofs::WriterLaws::witness_parts), unfolding(protocol::specs::Write::write_answer, protocol::specs::Write::after_write, crate::specs::Writer::witness_written, crate::specs::Writer::witness_stored))]
pub fn encode_witness(
    operation: u8,
    sequence: u64,
    slots: &[u16],
    lengths: &[u32],
    bytes: &[u8],
    out: &mut [u8],
) -> Result<usize, ProtocolError>
    ensures value { result ≡ witness_written operation slots.now lengths.now bytes.now out.old }
    ensures out_after { out.new ≡ witness_stored operation sequence slots.now lengths.now bytes.now out.old }
{
    let len = written_len(operation, slots, lengths, bytes, out.len())?;
    store_header(out, operation, slots.len(), sequence);
    store_proofs(out, slots, lengths, bytes);
    Ok(len)
}
