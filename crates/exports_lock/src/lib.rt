// The lock, and a scene read and decided, for programs in other languages.
#![tactic(auto)]

ghost use Rattle.std.specs.Prelude.{◌≡◌, ◌≤◌, length};
ghost use Rattle.account_lock.specs.Lock.{lock_of};
ghost use Rattle.decide_scene.specs.Decided.{decided};
ghost use Rattle.exports_lock.specs.Stored.{answer_stored, StoresDecision, StoresScene};

use account_lock::{LockAnswer, lock};
use decide_scene::decide_scene;
use export_answers::store_words;
use octets::{store_bytes, store_number};
use protocol::{ProtocolError, check_number, error_number};

// Three words, the digest, and the fee.
const ANSWER_LEN: usize = 64;

// Stores count, length and whether the digest is reached, as words, the digest behind them, and the fee as a further word.
fn store_answer(answer: LockAnswer, out: &mut [u8])
    requires { 64 ≤ length out.old }
    ensures { out.new ≡ answer_stored answer out.old }
{
    let words = [
        answer.count as u64,
        answer.length as u64,
        answer.reached as u64,
    ];
    store_words(&words, out);
    let digest = answer.digest;
    store_bytes(out, 24, &digest);
    store_number(out, 56, 8, answer.fee);
}

// Decides the transaction that table and store hold, writes the requests to the front of `answer`, and returns document
// 01's number, 0 where it is accepted. An `out` too short for the answer is 7, and nothing is written.
#[unsafe(no_mangle)]
pub extern "C" fn fowlcredenza_lock(
    table: &[u32],
    store: &[u8],
    answer: &mut [u8],
    out: &mut [u8],
) -> u32
    ensures { StoresDecision (lock_of table.now store.now (length answer.old))
        answer.old out.old result answer.new out.new }
{
    if out.len() < ANSWER_LEN {
        return error_number(ProtocolError::SlicesDisagree) as u32;
    }
    let locked = lock(table, store, answer);
    let found = locked.found;
    store_answer(locked, out);
    check_number(found) as u32
}

// Reads a scene into the store and the table, and decides it as `fowlcredenza_lock` does.
#[unsafe(no_mangle)]
pub extern "C" fn fowlcredenza_decide_scene(
    scene: &[u8],
    store: &mut [u8],
    table: &mut [u32],
    answer: &mut [u8],
    out: &mut [u8],
) -> u32
    ensures stores_decision { StoresDecision
        (decided scene.now (length store.old) (length table.old) (length answer.old))
        answer.old out.old result answer.new out.new }
    ensures stores_scene { StoresScene scene.now store.old table.old out.old
        store.new table.new }
{
    if out.len() < ANSWER_LEN {
        return error_number(ProtocolError::SlicesDisagree) as u32;
    }
    let read = decide_scene(scene, store, table, answer);
    let found = read.found;
    store_answer(read, out);
    check_number(found) as u32
}
