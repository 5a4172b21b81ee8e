// One proof: the rows that it passes before its request is made, and the request.
ghost use Rattle.std.specs.Prelude.{◌≡◌, eqb, length, Ok};
ghost use Rattle.protocol.specs.Rows.{decide};
ghost use Rattle.account_state.specs.Reading.{entry_of};
ghost use Rattle.verifier_request.specs.Writer.{request_written, request_stored};
ghost use Rattle.decision.specs.Proofs.{verifier_field, verifiers, proof_rows, request_content, request_of};
ghost use Rattle.proof_walk.specs.Answer.{walk_context, scene_deps};
ghost use Rattle.proof_walk.specs.Steps.{found_rows, proof_with, request_step, request_left};

use crate::Authorization;
use account_state::{
    algorithm_of, aux_of, capabilities_of, code_hash_of, hash_type_of, key_of, weight_of,
};
use cell_search::{CellField, Source, search_cells};
use octets::{array_32, fits, u8_at};
use protocol::{
    ProtocolError, VERIFIER_MAX_AUX_LEN, VERIFIER_MAX_PROOF_LEN, VERIFIER_MAX_REQUEST_LEN,
    VERIFIER_REQUEST_HEADER_LEN, require,
};
use quorum::{entry_in, find_authenticator, is_capable};
use scene_table::LentSlices;
use verifier_request::{RequestContent, encode_verifier_request};

// Which hash of a dep names the verifier.
#[tactic(auto, unfolding(decision::specs::Proofs::verifier_field))]
fn verifier_field(hash_type: u8) -> CellField
    ensures { result ≡ verifier_field hash_type }
{
    match hash_type {
        0 => CellField::DataHash,
        _ => CellField::TypeHash,
    }
}

// Whether just one dep is the verifier of the entry at the front of the bytes.
#[tactic(auto, using(crate::proofs::RequestLaws::verifier_resolved))]
fn resolve_verifier(scene: &LentSlices, entry: &[u8]) -> bool
    ensures { result ≡ eqb (length (verifiers (entry_of entry.now) (scene_deps scene.now.table scene.now.store))) 1 }
{
    let field = verifier_field(hash_type_of(entry));
    let hash = code_hash_of(entry);
    search_cells(scene, Source::CellDep, field, hash).is_one()
}

// The rows of a proof of `proof` bytes by what was found of its entry, where `left` bytes of the answer buffer are left.
#[tactic(auto, unfolding(protocol::specs::Rows::decide, account_state::specs::Reading::entry_of, decision::specs::Proofs::request_limit_rows, decision::specs::Proofs::authenticator_rows, crate::specs::Steps::found_rows))]
fn check_found(
    scene: &LentSlices,
    known: bool,
    entry: &[u8],
    operation: u8,
    proof: usize,
    left: usize,
) -> Result<(), ProtocolError>
    ensures { result ≡ decide (Ok tt)
        (found_rows known operation (scene_deps scene.now.table scene.now.store) (entry_of entry.now) proof left) }
{
    let aux = aux_of(entry).len();
    let invalid = ProtocolError::InvalidRequest;
    let head = VERIFIER_REQUEST_HEADER_LEN + aux;
    require(known, ProtocolError::InvalidWitness)?;
    require(
        is_capable(operation, capabilities_of(entry)),
        ProtocolError::InvalidCapability,
    )?;
    require(
        resolve_verifier(scene, entry),
        ProtocolError::InvalidVerifierRef,
    )?;
    require(proof <= VERIFIER_MAX_PROOF_LEN, invalid)?;
    require(
        fits(VERIFIER_MAX_REQUEST_LEN, head, proof),
        ProtocolError::LengthOverflow,
    )?;
    require(aux <= VERIFIER_MAX_AUX_LEN, invalid)?;
    require(fits(left, head, proof), ProtocolError::BufferTooShort)
}

// Writes the request of a proof and its entry to the front of `out`.
#[tactic(auto, using(crate::proofs::RequestLaws::numbers), unfolding(account_state::specs::Reading::entry_of, decision::specs::Proofs::request_content))]
fn encode_request<'a>(
    entry: &'a [u8],
    slot: u16,
    authorization: Authorization,
    proof: &'a [u8],
    out: &mut [u8],
) -> Result<usize, ProtocolError>
    ensures value { result ≡ request_written
        (request_content authorization.operation authorization.digest (entry_of entry.now) (proof_with slot proof.now))
        out.old }
    ensures out_after { out.new ≡ request_stored
        (request_content authorization.operation authorization.digest (entry_of entry.now) (proof_with slot proof.now))
        out.old }
{
    let aux = aux_of(entry);
    let digest = authorization.digest;
    let key = array_32(key_of(entry));
    let request = RequestContent {
        algorithm: algorithm_of(entry),
        slot,
        operation: authorization.operation,
        profile: u8_at(aux, 0),
        digest,
        key,
        aux,
        proof,
    };
    encode_verifier_request(&request, out)
}

// The rows of a proof, and its request at the front of `out`.
#[tactic(auto, using(crate::proofs::RequestLaws::requests), unfolding(crate::specs::Steps::request_step))]
pub(crate) fn make_request(
    scene: &LentSlices,
    state: &[u8],
    authorization: Authorization,
    slot: u16,
    proof: &[u8],
    out: &mut [u8],
) -> Result<(usize, u16), ProtocolError>
    ensures value { result ≡ request_step
        (walk_context scene.now.table scene.now.store state.now
        authorization.operation authorization.digest (length out.old))
        (proof_with slot proof.now) }
    ensures out_after { let c = walk_context scene.now.table scene.now.store state.now
        authorization.operation authorization.digest (length out.old) in
        let p = proof_with slot proof.now in
        out.new ≡ request_left (decide (Ok tt) (proof_rows c 0 p)) (request_of c p) out.old }
{
    let place = find_authenticator(state, slot);
    let entry = entry_in(state, place);
    check_found(
        scene,
        place.is_some(),
        entry,
        authorization.operation,
        proof.len(),
        out.len(),
    )?;
    let len = encode_request(entry, slot, authorization, proof, out)?;
    Ok((len, weight_of(entry)))
}
