// The account's states and its proofs, once the script and the group's first witness pass.
ghost use Rattle.std.specs.Prelude.{◌≡◌, IfOk, Ok};
ghost use Rattle.protocol.specs.Rows.{decide};
ghost use Rattle.scene_table.specs.Slices.{scene_of};
ghost use Rattle.account_lock.specs.Lock.{states_rows, late_rows, walk_result, digest};
ghost use Rattle.account_lock.specs.Calls.{ScriptAndGroupPass, DigestInputs, WalkInputs, StatesFound, found_by, ReturnsResult, StoresRequests};

use crate::answer::LockAnswer;
use account_state::sequence_of;
use account_witness::{operation_of, witness_sequence_of};
use authorization::digest_of;
use capacity::{check_totals, fee_where};
use group_sighash::{check_others, sighash_with};
use molecule::lock_of;
use octets::array_32;
use proof_walk::{Authorization, walk_proofs};
use protocol::ProtocolError;
use scene_table::LentSlices;
use state_transition::{
    ResolvedState, check_data, current_state, resolve_state, state_since, successor_state,
    validate_transition,
};

// What the proofs are walked with: the witness lock, the account's current state, and what every request is for.
#[derive(Drop)]
pub(crate) struct Account<'a> {
    lock: &'a [u8],
    current: &'a [u8],
    authorization: Authorization,
}

// The digest that every request carries.
#[tactic(auto, using(crate::proofs::LockLaws::digests), unfolding(crate::specs::Lock::digest, group_sighash::specs::GroupSighash::group_sighash))]
fn lock_digest(
    scene: &LentSlices,
    account_id: &[u8],
    witness: &[u8],
    operation: u8,
    current: &[u8],
) -> [u8; 32]
    requires { DigestInputs account_id.now witness.now operation current.now (scene_of scene.now) }
    ensures { result ≡ digest (scene_of scene.now) }
{
    let account = array_32(account_id);
    let sighash = sighash_with(scene, witness);
    digest_of(operation, account, sequence_of(current), current, sighash)
}

// The rows of the states, at the indices that were found for them.
#[tactic(auto, using(protocol::proofs::AllPass::deciding), unfolding(crate::specs::Lock::states_rows, crate::specs::Lock::witness_sequence))]
fn check_states(
    scene: &LentSlices,
    lock: &[u8],
    operation: u8,
    current: &[u8],
    state: ResolvedState,
) -> Result<(), ProtocolError>
    requires { StatesFound lock.now operation current.now state (scene_of scene.now) }
    ensures { result ≡ decide (Ok tt) (states_rows (scene_of scene.now)) }
{
    let successor = successor_state(scene, operation, state.successor);
    let since = state_since(scene, state.current);
    check_data(current, successor)?;
    validate_transition(
        operation,
        witness_sequence_of(lock),
        since,
        current,
        successor,
    )
}

// The account's states and the other witnesses, and then what the proofs are walked with.
#[tactic(auto, using(crate::proofs::LockLaws::finds))]
pub(crate) fn find_account<'s>(
    scene: &LentSlices<'_, 's>,
    account_id: &[u8],
    witness: &'s [u8],
) -> Result<Account<'s>, ProtocolError>
    requires { ScriptAndGroupPass account_id.now witness.now (scene_of scene.now) }
    ensures found { found_by result ≡ decide (Ok tt) (late_rows (scene_of scene.now)) }
    ensures inputs { IfOk result (λ a. WalkInputs a.lock.now a.current.now a.authorization (scene_of scene.now)) }
{
    let lock = lock_of(witness);
    let operation = operation_of(lock);
    let state = resolve_state(scene, operation, account_id)?;
    let current = current_state(scene, operation, state.current);
    check_states(scene, lock, operation, current, state)?;
    check_others(scene)?;
    let digest = lock_digest(scene, account_id, witness, operation, current);
    let authorization = Authorization { operation, digest };
    Ok(Account {
        lock,
        current,
        authorization,
    })
}

// The proofs, walked against the current state, and then the totals of the capacities.
#[tactic(auto, using(crate::proofs::LockLaws::walks), unfolding(crate::specs::Lock::walk_result, crate::specs::Lock::walked, crate::specs::Lock::answer_of, crate::specs::Lock::context_of, proof_walk::specs::Answer::walk_context, proof_walk::specs::Answer::scene_deps, proof_walk::specs::Answer::proof_walk_answer))]
pub(crate) fn walk_account(scene: &LentSlices, account: Account, answer: &mut [u8]) -> LockAnswer
    requires { WalkInputs account.lock.now account.current.now account.authorization (scene_of scene.now) }
    ensures returns_result { ReturnsResult walk_result scene.now.table scene.now.store answer.old result }
    ensures stores_requests { StoresRequests walk_result scene.now.table scene.now.store answer.old answer.new }
{
    let Account {
        lock,
        current,
        authorization,
    } = account;
    let digest = authorization.digest;
    let walked = walk_proofs(scene, current, lock, authorization, answer);
    let totals = check_totals(scene);
    let found = walked.found.and(totals.and(Ok(())));
    LockAnswer {
        found,
        count: walked.count,
        length: walked.length,
        reached: true,
        digest,
        fee: fee_where(found, totals.unwrap_or(0)),
    }
}
