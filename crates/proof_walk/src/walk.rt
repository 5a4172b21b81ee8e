// The walk over the proofs, one by one.
ghost use Rattle.std.specs.Prelude.{◌≡◌, eqb, length, Ok};
ghost use Rattle.protocol.specs.Rows.{decide};
ghost use Rattle.account_witness.specs.Reading.{proof_of};
ghost use Rattle.quorum.specs.Operation.{threshold_of};
ghost use Rattle.decision.specs.Proofs.{request_of};
ghost use Rattle.decision.specs.Walk.{walk_lock, answered, last_rows};
ghost use Rattle.proof_walk.specs.Answer.{walk_context, walk_proofs, proof_walk_answer};
ghost use Rattle.proof_walk.specs.Steps.{verdict_outcome, request_left, proof_check, proof_outcome};

use crate::Authorization;
use crate::request::make_request;
use account_witness::{ProofCursor, first_proof, next_proof, proof_count_of};
use octets::part;
use protocol::{ProtocolError, is_operation, require};
use quorum::threshold_of;
use scene_table::{LentSlices, verdict};

// What the walk answers: what the checks found, how many requests were made, and how many bytes they take; a refusal has these too.
#[derive(Drop)]
pub struct ProofWalkAnswer {
    pub found: Result<(), ProtocolError>,
    pub count: usize,
    pub length: usize,
}

// What a proof comes to whose request was made: the verifier failed on it; or the weight that it adds, and the cursor behind
// the proof. The length of the request stands first.
#[derive(Drop)]
enum ProofOutcome {
    Failed(usize),
    Onward(usize, u16, ProofCursor),
}

// The outcome by the verdict on its request, a number as the table has it: 0 approved, 1 refused, 2 failed.
#[tactic(auto, unfolding(crate::specs::Steps::verdict_outcome))]
fn apply_verdict(verdict: u32, len: usize, weight: u16, next: ProofCursor) -> ProofOutcome
    ensures { result ≡ verdict_outcome verdict len weight next }
{
    match verdict {
        0 => ProofOutcome::Onward(len, weight, next),
        2 => ProofOutcome::Failed(len),
        _ => ProofOutcome::Onward(len, 0, next),
    }
}

// One proof: its layout, its rows, its request at the front of `out`, and its verdict.
#[tactic(auto, using(crate::proofs::WalkLaws::verdict_lent), unfolding(account_witness::specs::Walk::proof_step, account_witness::specs::Reading::proof_given, crate::specs::Steps::request_step, crate::specs::Steps::proof_check, crate::specs::Steps::proof_outcome))]
fn walk_proof(
    scene: &LentSlices,
    state: &[u8],
    lock: &[u8],
    cursor: ProofCursor,
    index: u8,
    authorization: Authorization,
    out: &mut [u8],
) -> Result<ProofOutcome, ProtocolError>
    ensures value { result ≡ proof_outcome
        (walk_context scene.now.table scene.now.store state.now
        authorization.operation authorization.digest (length out.old))
        lock.now cursor index }
    ensures out_after { let c = walk_context scene.now.table scene.now.store state.now
        authorization.operation authorization.digest (length out.old) in
        out.new ≡ request_left (proof_check c lock.now cursor) (request_of c (proof_of lock.now cursor.offset)) out.old }
{
    let (proof, next) = next_proof(lock, cursor)?;
    let bytes = part(lock, proof.start, proof.len);
    let (len, weight) = make_request(scene, state, authorization, proof.slot, bytes, out)?;
    Ok(apply_verdict(verdict(scene.table, index as u32), len, weight, next))
}

// The checks behind the last proof, where the walk stands at `offset`.
#[tactic(auto, unfolding(protocol::specs::Rows::decide, decision::specs::Walk::last_rows))]
fn check_last(
    state: &[u8],
    lock: &[u8],
    operation: u8,
    offset: usize,
    weight: u32,
) -> Result<(), ProtocolError>
    ensures { result ≡ decide (Ok tt) (last_rows (eqb offset (length lock.now)) weight (threshold_of operation state.now)) }
{
    let threshold = threshold_of(state, operation) as u32;
    require(offset == lock.len(), ProtocolError::InvalidWitness)?;
    require(0 < threshold, ProtocolError::ThresholdUnsatisfied)?;
    require(threshold <= weight, ProtocolError::ThresholdUnsatisfied)
}

// The answer where `count` requests of `length` bytes were made.
fn answer_of(found: Result<(), ProtocolError>, count: u8, length: usize) -> ProofWalkAnswer
    ensures { result ≡ record { found = found; count = count; length = length } }
{
    ProofWalkAnswer {
        found,
        count: count as usize,
        length,
    }
}

// The proofs, one by one.
#[tactic(auto, using(crate::proofs::WalkLaws::walks), unfolding(crate::specs::Answer::proof_walk_answer))]
fn walk_lock(
    scene: &LentSlices,
    state: &[u8],
    lock: &[u8],
    authorization: Authorization,
    answer: &mut [u8],
) -> ProofWalkAnswer
    ensures value { result ≡ proof_walk_answer (walk_lock
        (walk_context scene.now.table scene.now.store state.now
        authorization.operation authorization.digest (length answer.old))
        lock.now) }
    ensures answer_after { answer.new ≡ answered answer.old (walk_lock
        (walk_context scene.now.table scene.now.store state.now
        authorization.operation authorization.digest (length answer.old))
        lock.now).made }
{
    let count = proof_count_of(lock);
    let mut cursor = first_proof();
    let mut weight: u32 = 0;
    let mut total: usize = 0;
    for i in 0..count {
        let out = &mut answer[total..];
        match walk_proof(scene, state, lock, cursor, i, authorization, out) {
            Err(error) => return answer_of(Err(error), i, total),
            Ok(ProofOutcome::Failed(len)) => {
                let failure = Err(ProtocolError::VerifierFailure);
                return answer_of(failure, i + 1, total + len);
            }
            Ok(ProofOutcome::Onward(len, added, next)) => {
                cursor = next;
                weight += added as u32;
                total += len;
            }
        }
    }
    let found = check_last(state, lock, authorization.operation, cursor.offset, weight);
    answer_of(found, count, total)
}

// Walks the proofs of a witness lock, and writes each request into the rest of the answer buffer, behind the last one. An
// operation outside 1 to 3 is 37, before the first proof.
#[tactic(auto, using(crate::proofs::WalkLaws::operations), unfolding(crate::specs::Answer::proof_walk_answer, decision::specs::Walk::answered))]
pub fn walk_proofs(
    scene: &LentSlices,
    state: &[u8],
    lock: &[u8],
    authorization: Authorization,
    answer: &mut [u8],
) -> ProofWalkAnswer
    ensures value { result ≡ proof_walk_answer (walk_proofs
        (walk_context scene.now.table scene.now.store state.now
        authorization.operation authorization.digest (length answer.old))
        lock.now) }
    ensures answer_after { answer.new ≡ answered answer.old (walk_proofs
        (walk_context scene.now.table scene.now.store state.now
        authorization.operation authorization.digest (length answer.old))
        lock.now).made }
{
    if is_operation(authorization.operation) {
        walk_lock(scene, state, lock, authorization, answer)
    } else {
        answer_of(Err(ProtocolError::InvalidOperation), 0, 0)
    }
}
