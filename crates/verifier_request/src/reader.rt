// The reader of a verifier request.
ghost use Rattle.std.specs.Prelude.{◌≡◌, Ok};
ghost use Rattle.protocol.specs.Rows.{decide};
ghost use Rattle.verifier_request.specs.Reader.{request_header_rows, request_field_rows, request_fault, request_fields_of, read_request};

use crate::fields::{
    request_abi_of, request_algorithm_of, request_aux_length_of, request_header_length_of,
    request_last_zeros_of, request_magic_of, request_operation_of, request_profile_of,
    request_proof_length_of, request_reserved_of, request_slot_of, request_zeros_of,
};
use crate::offsets::{DIGEST_OFFSET, KEY_OFFSET};
use protocol::{
    ProtocolError, VERIFIER_ABI_V1, VERIFIER_MAGIC, VERIFIER_MAX_AUX_LEN, VERIFIER_MAX_PROOF_LEN,
    VERIFIER_MAX_REQUEST_LEN, VERIFIER_REQUEST_HEADER_LEN, is_operation, require,
};

// The numbers of a request, and where each of its parts begins. The digest and the key have 32 bytes each.
#[derive(Drop)]
pub struct RequestFields {
    pub algorithm_id: u16,
    pub slot: u16,
    pub operation: u8,
    pub verifier_profile: u8,
    pub authorization_digest: usize,
    pub key_id: usize,
    pub aux: usize,
    pub aux_len: usize,
    pub proof: usize,
    pub proof_len: usize,
}

// The length, and the bytes that are the same in every request of this ABI.
#[tactic(auto, unfolding(protocol::specs::Rows::decide, crate::specs::Reader::request_header_rows))]
fn check_head(request: &[u8]) -> Result<(), ProtocolError>
    ensures { result ≡ decide (Ok tt) (request_header_rows request.now) }
{
    let invalid = ProtocolError::InvalidRequest;
    require(VERIFIER_REQUEST_HEADER_LEN <= request.len(), invalid)?;
    require(request.len() <= VERIFIER_MAX_REQUEST_LEN, invalid)?;
    require(request_magic_of(request) == VERIFIER_MAGIC, invalid)?;
    require(
        request_abi_of(request) == VERIFIER_ABI_V1,
        ProtocolError::UnsupportedVersion,
    )?;
    require(request_reserved_of(request) == 0, invalid)?;
    require(
        request_header_length_of(request) as usize == VERIFIER_REQUEST_HEADER_LEN,
        invalid,
    )
}

// The operation, the zeros and the lengths.
#[tactic(auto, unfolding(protocol::specs::Rows::decide, crate::specs::Reader::request_field_rows))]
fn check_fields(request: &[u8]) -> Result<(), ProtocolError>
    ensures { result ≡ decide (Ok tt) (request_field_rows request.now) }
{
    let invalid = ProtocolError::InvalidRequest;
    let aux_len = request_aux_length_of(request) as usize;
    let proof_len = request_proof_length_of(request) as usize;
    require(
        is_operation(request_operation_of(request)),
        ProtocolError::InvalidOperation,
    )?;
    require(request_zeros_of(request) == 0, invalid)?;
    require(request_last_zeros_of(request) == 0, invalid)?;
    require(aux_len <= VERIFIER_MAX_AUX_LEN, invalid)?;
    require(proof_len <= VERIFIER_MAX_PROOF_LEN, invalid)?;
    require(
        VERIFIER_REQUEST_HEADER_LEN + aux_len + proof_len == request.len(),
        invalid,
    )
}

#[tactic(auto, using(protocol::proofs::AllPass::deciding), unfolding(crate::specs::Reader::request_fault, crate::specs::Reader::request_rows))]
fn check_request(request: &[u8]) -> Result<(), ProtocolError>
    ensures { result ≡ request_fault request.now }
{
    check_head(request)?;
    check_fields(request)
}

#[tactic(auto, unfolding(crate::specs::Reader::request_fields_of))]
fn fields_at(request: &[u8]) -> RequestFields
    ensures { result ≡ request_fields_of request.now }
{
    let aux_len = request_aux_length_of(request) as usize;
    RequestFields {
        algorithm_id: request_algorithm_of(request),
        slot: request_slot_of(request),
        operation: request_operation_of(request),
        verifier_profile: request_profile_of(request),
        authorization_digest: DIGEST_OFFSET,
        key_id: KEY_OFFSET,
        aux: VERIFIER_REQUEST_HEADER_LEN,
        aux_len,
        proof: VERIFIER_REQUEST_HEADER_LEN + aux_len,
        proof_len: request_proof_length_of(request) as usize,
    }
}

// The fields of a request, or the refusal of the first check that fails.
#[tactic(auto, unfolding(crate::specs::Reader::read_request))]
pub fn parse_verifier_request(request: &[u8]) -> Result<RequestFields, ProtocolError>
    ensures { result ≡ read_request request.now }
{
    check_request(request)?;
    Ok(fields_at(request))
}
