// One case: a scene that is put together, read, and counted.
ghost use Rattle.std.specs.Prelude.{◌≤◌, length, IfOk};

use octets::store_bytes;
use protocol::{ProtocolError, error_number};
use scene_reader::read_scene;
use std::io;
use test_support::{Counts, counted, field, fields_after, value, wide};
use text::{all_between, head, tail};

// The expected number, the lengths of the store and the table, the scene's length so far; and how many cases passed and failed.
#[derive(Drop)]
pub(crate) struct Case {
    pub expected: u64,
    pub store: usize,
    pub table: usize,
    pub at: usize,
    pub counts: Counts,
}

// A case of these fields; its name is written.
pub(crate) fn begin(rt: &impl Print, case: Case, fields: &[u8]) -> io::Result<Case>
    ensures { IfOk result (λ begun. begun.at ≤ 0) }
{
    let counts = case.counts;
    rt.write_all(field(fields))?;
    print!(rt; ": ")?;
    let expected = fields_after(fields);
    let store = fields_after(expected);
    let table = fields_after(store);
    Ok(Case {
        expected: value(field(expected)),
        store: value(field(store)) as usize,
        table: value(field(table)) as usize,
        at: 0,
        counts,
    })
}

// The scene's length after text, as far as there is room for it whole.
fn append(scene: &mut [u8], at: usize, text: &[u8]) -> usize
    requires { at ≤ length scene.old }
    ensures { result ≤ length scene.old }
{
    if scene.len() - at < text.len() {
        return at;
    }
    store_bytes(scene, at, text);
    at + text.len()
}

fn append_times(scene: &mut [u8], start: usize, count: usize, text: &[u8], ending: &[u8]) -> usize
    requires { start ≤ length scene.old }
    ensures { result ≤ length scene.old }
{
    let mut at = start;
    for _ in 0..count {
        at = append(scene, at, text);
        at = append(scene, at, ending);
    }
    at
}

// A count, at most the scene's room, and a text, each time with the ending.
pub(crate) fn add(case: Case, fields: &[u8], ending: &[u8], scene: &mut [u8]) -> Case
    requires { case.at ≤ length scene.old }
    ensures { result.at ≤ length scene.old }
{
    let counts = case.counts;
    let count = (value(field(fields)) as usize).min(scene.len());
    let end = append_times(scene, case.at, count, fields_after(fields), ending);
    Case {
        expected: case.expected,
        store: case.store,
        table: case.table,
        at: end,
        counts,
    }
}

// Whether all entries from index `from` on are zero.
fn zero_from(words: &[u32], from: usize) -> bool {
    words.iter().skip(from).all(|&word| word == 0)
}

// The number of a scene, read into a store and a table without a zero. 99 where a refusal left something in them, 98 where an
// accepted scene left something behind the most that it can fill: its own length, and 1,181 entries.
fn number(scene: &[u8], store: &mut [u8], table: &mut [u32]) -> u64 {
    store.fill(255);
    table.fill(u32::MAX);
    match read_scene(scene, store, table) {
        Ok(()) => {
            if all_between(tail(store, scene.len()), 0, 0) & zero_from(table, 1181) {
                0
            } else {
                98
            }
        }
        Err(error) => {
            if all_between(store, 0, 0) & zero_from(table, 0) {
                wide(error_number(error))
            } else {
                99
            }
        }
    }
}

// Reads the case's scene, writes its number and counts it.
pub(crate) fn run(
    rt: &impl Print,
    case: Case,
    scene: &[u8],
    store: &mut [u8],
    table: &mut [u32],
) -> io::Result<Case>
    requires { case.at ≤ length scene.now }
    ensures { IfOk result (λ after. after.at ≤ length scene.now) }
{
    let store_len = case.store.min(store.len());
    let table_len = case.table.min(table.len());
    let found = number(
        head(scene, case.at),
        &mut store[..store_len],
        &mut table[..table_len],
    );
    println!(rt; "{found}")?;
    let before = case.counts;
    let counts = counted(before, found == case.expected);
    Ok(Case {
        expected: case.expected,
        store: case.store,
        table: case.table,
        at: case.at,
        counts,
    })
}
