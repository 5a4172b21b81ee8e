// The writer of a public-key proof.
ghost use Rattle.std.specs.Prelude.{◌≡◌};
ghost use Rattle.std.proofs.lemmas.List.Edits.{sets};
ghost use Rattle.protocol.specs.Write.{write_answer};
ghost use Rattle.public_key_proof.specs.Reading.{public_key_proof_with, public_key_proof_bytes};
ghost use Rattle.public_key_proof.specs.Writer.{public_key_proof_total, public_key_proof_writer_fault, public_key_proof_written, public_key_proof_stored};

use crate::offsets::{
    PUBLIC_KEY_LENGTH_OFFSET, PUBLIC_KEY_OFFSET, SIGNATURE_LENGTH_OFFSET, VERSION_OFFSET,
};
use octets::{store_bytes, store_number};
use protocol::{ProtocolError, require};

// Stores the proof's bytes from the front of `out`, as far as there is room.
#[tactic(auto, using(crate::proofs::Form::parts_stored), unfolding(octets::proofs::LayoutLaws::store_numbers, crate::specs::Reading::public_key_proof_head))]
fn store_proof(key: &[u8], signature: &[u8], out: &mut [u8])
    ensures { out.new ≡ sets out.old 0 (public_key_proof_bytes (public_key_proof_with key.now signature.now)) }
{
    store_number(out, VERSION_OFFSET, 1, 1);
    store_number(out, PUBLIC_KEY_LENGTH_OFFSET, 2, key.len() as u64);
    store_number(out, SIGNATURE_LENGTH_OFFSET, 2, signature.len() as u64);
    store_bytes(out, PUBLIC_KEY_OFFSET, key);
    store_bytes(out, PUBLIC_KEY_OFFSET + key.len(), signature);
}

// The length of a proof, or the writer's refusal: that of a buffer of `room` bytes comes last.
#[tactic(auto, unfolding(protocol::specs::Rows::decide, protocol::specs::Write::write_fault, protocol::specs::Write::write_answer, crate::specs::Writer::public_key_proof_writer_rows, crate::specs::Writer::public_key_proof_total, crate::specs::Writer::public_key_proof_writer_fault))]
fn written_len(key: &[u8], signature: &[u8], room: usize) -> Result<usize, ProtocolError>
    ensures { let r = public_key_proof_with key.now signature.now in
        result ≡ write_answer (public_key_proof_writer_fault r room) (public_key_proof_total r) }
{
    require(0 < key.len(), ProtocolError::InvalidProof)?;
    require(0 < signature.len(), ProtocolError::InvalidProof)?;
    require(key.len() <= 65_535, ProtocolError::LengthOverflow)?;
    require(signature.len() <= 65_535, ProtocolError::LengthOverflow)?;
    let len = PUBLIC_KEY_OFFSET + key.len() + signature.len();
    require(len <= room, ProtocolError::BufferTooShort)?;
    Ok(len)
}

// Writes a proof to the front of `out` and answers its length. A refused writer writes nothing.
#[tactic(auto, using(crate::proofs::Form::proof_stored), unfolding(protocol::specs::Write::write_answer, protocol::specs::Write::after_write, crate::specs::Writer::public_key_proof_written, crate::specs::Writer::public_key_proof_stored))]
pub fn encode_public_key_proof(
    key: &[u8],
    signature: &[u8],
    out: &mut [u8],
) -> Result<usize, ProtocolError>
    ensures value { result ≡ public_key_proof_written (public_key_proof_with key.now signature.now) out.old }
    ensures out_after { out.new ≡ public_key_proof_stored (public_key_proof_with key.now signature.now) out.old }
{
    let len = written_len(key, signature, out.len())?;
    store_proof(key, signature, out);
    Ok(len)
}
