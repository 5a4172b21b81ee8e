// A scene's text decided: it is read, then the lock runs over what it says; and the line that the program prints of it.
#![tactic(auto)]

ghost use Rattle.std.specs.Prelude.{◌≡◌, ◌≤◌, length, take};
ghost use Rattle.std.proofs.lemmas.List.Edits.{sets};
ghost use Rattle.octets.specs.Lists.{array_of};
ghost use Rattle.scene_reader.specs.Reader.{reader_store, reader_table, read_into};
ghost use Rattle.decision.specs.Walk.{answered};
ghost use Rattle.account_lock.specs.Lock.{answer_of};
ghost use Rattle.decide_scene.specs.Decided.{program_decides, program_line, decided_into, lock_answer_line};

use account_lock::{LockAnswer, lock, refused};
use answer_line::answer_line;
use octets::part;
use protocol::{ANSWER_BUFFER_LEN, ProtocolError, TABLE_MIN_ENTRIES, check_number};
use scene_reader::read_scene;

// The longest scene that the program reads.
pub const PROGRAM_SCENE_MAX_LEN: usize = 65_536;

// The line that the program prints: the first `length` bytes.
#[derive(Drop)]
pub struct ProgramLine {
    pub bytes: [u8; 156],
    pub length: usize,
}

impl ProgramLine {
    // The line itself.
    pub fn as_bytes(&self) -> &[u8]
        ensures { result.now ≡ take self.now.length self.now.bytes }
    {
        part(&self.bytes, 0, self.length)
    }
}

// Reads the scene into the store and the table, and decides it; the requests stand at the front of `answer`.
#[tactic(auto, using(crate::proofs::Outcomes::scene_decides), unfolding(account_lock::specs::Lock::or_walked, account_lock::specs::Lock::refused, decision::specs::Walk::answered))]
pub fn decide_scene(
    scene: &[u8],
    store: &mut [u8],
    table: &mut [u32],
    answer: &mut [u8],
) -> LockAnswer
    ensures value { result ≡ answer_of (decided_into scene.now store.old table.old answer.old) }
    ensures store_after { store.new ≡ reader_store (length store.old) (read_into scene.now store.old table.old) }
    ensures table_after { table.new ≡ reader_table (length table.old) (read_into scene.now store.old table.old) }
    ensures answer_after { answer.new
        ≡ answered answer.old (decided_into scene.now store.old table.old answer.old).made }
{
    match read_scene(scene, store, table) {
        Err(error) => refused(error),
        Ok(()) => lock(table, store, answer),
    }
}

fn put_answer(found: LockAnswer, line: &mut [u8]) -> usize
    ensures value { result ≡ length (lock_answer_line found) }
    ensures upper_bound { result ≤ 156 }
    ensures line_after { line.new ≡ sets line.old 0 (lock_answer_line found) }
{
    answer_line(
        check_number(found.found),
        found.count,
        found.length,
        found.reached,
        found.digest,
        found.fee,
        line,
    )
}

// What the program decides of a scene, with a store, a table and an answer buffer of its own.
#[tactic(auto, unfolding(crate::specs::Decided::program_decides))]
fn program_answer(scene: &[u8]) -> LockAnswer
    ensures { result ≡ answer_of (program_decides scene.now) }
{
    if scene.len() > PROGRAM_SCENE_MAX_LEN {
        return refused(ProtocolError::SceneTooLong);
    }
    // As long as the longest scene.
    let mut store = [0u8; PROGRAM_SCENE_MAX_LEN];
    let mut table = [0u32; TABLE_MIN_ENTRIES];
    // Room for the requests of any scene.
    let mut answer = [0u8; ANSWER_BUFFER_LEN];
    decide_scene(scene, &mut store, &mut table, &mut answer)
}

// The program's line of a scene, zeros behind it.
#[tactic(auto, using(crate::proofs::Outcomes::told_line), unfolding(octets::specs::Lists::array_of, crate::specs::Decided::program_line))]
pub fn program_line(scene: &[u8]) -> ProgramLine
    ensures length_value { result.length ≡ length (program_line scene.now) }
    ensures length_bound { result.length ≤ 156 }
    ensures bytes_value { result.bytes ≡ array_of 156 (program_line scene.now) }
{
    let mut bytes = [0u8; 156];
    let length = put_answer(program_answer(scene), &mut bytes);
    ProgramLine { bytes, length }
}
