// The writer of a verifier request.
ghost use Rattle.std.specs.Prelude.{◌≡◌, length};
ghost use Rattle.std.proofs.lemmas.List.Edits.{sets};
ghost use Rattle.octets.specs.Layout.{layout_bytes};
ghost use Rattle.protocol.specs.Write.{write_answer};
ghost use Rattle.verifier_request.specs.Reading.{RequestReading, request_with, request_head, request_lengths, request_bytes};
ghost use Rattle.verifier_request.specs.Writer.{request_total, request_writer_fault, request_written, request_stored};

use crate::offsets::{
    ABI_OFFSET, ALGORITHM_OFFSET, AUX_LENGTH_OFFSET, DIGEST_OFFSET, HEADER_LENGTH_OFFSET,
    KEY_OFFSET, LAST_ZEROS_OFFSET, MAGIC_OFFSET, OPERATION_OFFSET, PROFILE_OFFSET,
    PROOF_LENGTH_OFFSET, RESERVED_OFFSET, SLOT_OFFSET, ZEROS_OFFSET,
};
use octets::{store_bytes, store_number};
use protocol::{
    ProtocolError, VERIFIER_ABI_V1, VERIFIER_MAGIC, VERIFIER_MAX_AUX_LEN, VERIFIER_MAX_PROOF_LEN,
    VERIFIER_REQUEST_HEADER_LEN, is_operation, require,
};
use std::marker::Model;

// What a request says. In contracts it is the reading of a request, a slice counting as its bytes.
#[derive(Drop)]
pub struct RequestContent<'a> {
    pub algorithm: u16,
    pub slot: u16,
    pub operation: u8,
    pub profile: u8,
    pub digest: [u8; 32],
    pub key: [u8; 32],
    pub aux: &'a [u8],
    pub proof: &'a [u8],
}

impl<'a> Model for RequestContent<'a> {
    ghost Value = { RequestReading };

    ghost view = { λ r. request_with r.algorithm r.slot r.operation r.profile r.digest r.key r.aux.now r.proof.now };
}

impl<'a> RequestContent<'a> {
    // Stores bytes 0 to 15.
    #[tactic(auto, using(octets::proofs::LayoutLaws::layout_stored), unfolding(octets::proofs::LayoutLaws::store_numbers, crate::specs::Reading::request_head))]
    fn store_head(&self, out: &mut [u8])
        ensures { out.new ≡ sets out.old 0
            (layout_bytes (request_head self.now.algorithm self.now.slot self.now.operation self.now.profile)) }
    {
        store_number(out, MAGIC_OFFSET, 4, u64::from(VERIFIER_MAGIC));
        store_number(out, ABI_OFFSET, 1, u64::from(VERIFIER_ABI_V1));
        store_number(out, RESERVED_OFFSET, 1, 0);
        store_number(
            out,
            HEADER_LENGTH_OFFSET,
            2,
            VERIFIER_REQUEST_HEADER_LEN as u64,
        );
        store_number(out, ALGORITHM_OFFSET, 2, u64::from(self.algorithm));
        store_number(out, SLOT_OFFSET, 2, u64::from(self.slot));
        store_number(out, OPERATION_OFFSET, 1, u64::from(self.operation));
        store_number(out, PROFILE_OFFSET, 1, u64::from(self.profile));
        store_number(out, ZEROS_OFFSET, 2, 0);
    }

    // Stores bytes 80 to 95.
    #[tactic(auto, using(octets::proofs::LayoutLaws::layout_stored), unfolding(octets::proofs::LayoutLaws::store_numbers, crate::specs::Reading::request_lengths))]
    fn store_lengths(&self, out: &mut [u8])
        ensures { out.new ≡ sets out.old 80
            (layout_bytes (request_lengths (length self.now.aux) (length self.now.proof))) }
    {
        store_number(out, AUX_LENGTH_OFFSET, 4, self.aux.len() as u64);
        store_number(out, PROOF_LENGTH_OFFSET, 4, self.proof.len() as u64);
        store_number(out, LAST_ZEROS_OFFSET, 8, 0);
    }

    // Stores the request's bytes from the front of `out`, as far as there is room.
    #[tactic(auto, using(crate::proofs::Form::parts_stored, crate::proofs::Form::length_parts))]
    fn store(&self, out: &mut [u8])
        ensures stored { out.new ≡ sets out.old 0 (request_bytes self.now) }
        ensures long { length (request_bytes self.now) ≡ request_total self.now }
    {
        self.store_head(out);
        store_bytes(out, DIGEST_OFFSET, &self.digest);
        store_bytes(out, KEY_OFFSET, &self.key);
        self.store_lengths(out);
        store_bytes(out, VERIFIER_REQUEST_HEADER_LEN, self.aux);
        store_bytes(
            out,
            VERIFIER_REQUEST_HEADER_LEN + self.aux.len(),
            self.proof,
        );
    }

    // The length of the request, or the writer's refusal: that of a buffer of `room` bytes comes last.
    #[tactic(auto, unfolding(protocol::specs::Rows::decide, protocol::specs::Write::write_fault, protocol::specs::Write::write_answer, crate::specs::Writer::request_writer_limit_rows, crate::specs::Writer::request_writer_rows, crate::specs::Writer::request_total, crate::specs::Writer::request_writer_fault))]
    fn written_len(&self, room: usize) -> Result<usize, ProtocolError>
        ensures { result ≡ write_answer (request_writer_fault self.now room) (request_total self.now) }
    {
        let invalid = ProtocolError::InvalidRequest;
        require(
            is_operation(self.operation),
            ProtocolError::InvalidOperation,
        )?;
        require(self.aux.len() <= VERIFIER_MAX_AUX_LEN, invalid)?;
        require(self.proof.len() <= VERIFIER_MAX_PROOF_LEN, invalid)?;
        let len = VERIFIER_REQUEST_HEADER_LEN + self.aux.len() + self.proof.len();
        require(len <= room, ProtocolError::BufferTooShort)?;
        Ok(len)
    }
}

// Writes a request to the front of `out` and answers its length. A refused writer writes nothing.
#[tactic(auto, using(crate::proofs::Form::request_stored_front), unfolding(protocol::specs::Write::write_answer, protocol::specs::Write::after_write, crate::specs::Writer::request_written, crate::specs::Writer::request_stored))]
pub fn encode_verifier_request(
    request: &RequestContent,
    out: &mut [u8],
) -> Result<usize, ProtocolError>
    ensures value { result ≡ request_written request.now out.old }
    ensures out_after { out.new ≡ request_stored request.now out.old }
{
    let len = request.written_len(out.len())?;
    request.store(out);
    Ok(len)
}
