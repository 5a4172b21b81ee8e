// The account lock: what it decides of a transaction, lent as a table and a store, and the requests that it makes.
#![tactic(auto)]

mod answer; // answer.rt
mod script; // script.rt
mod account; // account.rt

ghost use Rattle.std.specs.Prelude.{◌≡◌, IfOk, Ok};
ghost use Rattle.protocol.specs.Rows.{decide};
ghost use Rattle.scene_table.specs.Slices.{scene_of};
ghost use Rattle.account_lock.specs.Lock.{early_rows, lock_scene};
ghost use Rattle.account_lock.specs.Decides.{LockOutcome, LockRequests, LockDecision};
ghost use Rattle.account_lock.specs.Calls.{WalkInputs, found_by, ReturnsResult, StoresRequests};

use self::account::{Account, find_account, walk_account};
pub use self::answer::{LockAnswer, refused};
use self::script::check_script;
use cell_hashes::check_hashes;
use group_sighash::{check_first_witness, first_witness};
use molecule::args_of;
use octets::part_at;
use protocol::{ProtocolError, account_of};
use scene_table::{LentSlices, script, table_valid};

// Every check before the proofs, and then what the proofs are walked with.
#[tactic(auto, using(crate::proofs::LockLaws::checks))]
fn check_scene<'s>(scene: &LentSlices<'_, 's>) -> Result<Account<'s>, ProtocolError>
    ensures found { found_by result ≡ decide (Ok tt) (early_rows (scene_of scene.now)) }
    ensures inputs { IfOk result (λ a. WalkInputs a.lock.now a.current.now a.authorization (scene_of scene.now)) }
{
    check_hashes(scene)?;
    let script = part_at(scene.store, script(scene.table));
    check_script(script)?;
    let witness = first_witness(scene);
    check_first_witness(witness)?;
    find_account(scene, account_of(args_of(script)), witness)
}

// The lock over a transaction whose table is one that a scene, its length aside, leaves.
#[tactic(auto, unfolding(crate::specs::Lock::lock_scene, crate::specs::Lock::or_walked, crate::specs::Lock::refused, decision::specs::Walk::answered))]
fn lock_scene(scene: &LentSlices, answer: &mut [u8]) -> LockAnswer
    ensures returns_result { ReturnsResult lock_scene scene.now.table scene.now.store answer.old result }
    ensures stores_requests { StoresRequests lock_scene scene.now.table scene.now.store answer.old answer.new }
{
    match check_scene(scene) {
        Ok(account) => walk_account(scene, account, answer),
        Err(error) => refused(error),
    }
}

// Decides the transaction, and writes the requests of its proofs to the front of `answer`.
#[tactic(auto, using(crate::proofs::LockTheorem::promises), unfolding(crate::specs::Lock::answer_of, crate::specs::Lock::refused, decision::specs::Walk::answered))]
pub fn lock(table: &[u32], store: &[u8], answer: &mut [u8]) -> LockAnswer
    ensures outcome { LockOutcome table.now store.now answer.old result }
    ensures requests { LockRequests table.now store.now answer.old answer.new }
    ensures decision { LockDecision table.now store.now answer.old result }
{
    if table_valid(table, store.len()) {
        lock_scene(&LentSlices { table, store }, answer)
    } else {
        refused(ProtocolError::SlicesDisagree)
    }
}
