// One record: a scene that is read and decided, and the line of its answer.
ghost use Rattle.std.specs.Prelude.{◌≤◌, length};

use account_lock::{LockAnswer, lock};
use octets::{part, rest, same_bytes};
use protocol::{ProtocolError, check_number};
use scene_reader::read_scene;
use std::io;
use test_support::{field, fields_after, value};
use text::{LINE_END, decode, find, head, read_decimal, tail};

// What follows the record of a scene of that length.
pub(crate) fn behind_record(text: &[u8], len: usize) -> &[u8]
    ensures { length result.now ≤ length text.now }
{
    let line = rest(text, len);
    tail(line, find(line, LINE_END))
}

fn same_digest(digits: &[u8], reached: bool, digest: &[u8]) -> bool {
    if !reached {
        return digits.is_empty();
    }
    let mut expected = [0u8; 32];
    decode(digits, &mut expected, 0);
    (digits.len() == 64) & same_bytes(&expected, digest)
}

// Whether the field is the fee of an accepted scene, or empty.
fn same_fee(text: &[u8], found: Result<(), ProtocolError>, fee: u64) -> bool {
    match found {
        Err(_) => text.is_empty() && fee == 0,
        Ok(()) => read_decimal(text) == Some(fee),
    }
}

// Whether the line has this answer.
fn same_answer(line: &[u8], answer: LockAnswer) -> bool {
    let number = fields_after(line);
    let count = fields_after(number);
    let len = fields_after(count);
    let digits = fields_after(len);
    let found = answer.found;
    let digest = answer.digest;
    (value(field(number)) == check_number(found) as u64)
        & (value(field(count)) == answer.count as u64)
        & (value(field(len)) == answer.length as u64)
        & same_digest(field(digits), answer.reached, &digest)
        & same_fee(fields_after(digits), found, answer.fee)
}

// Whether the scene is read, and the line has the lock's answer.
fn passes(
    scene: &[u8],
    line: &[u8],
    store: &mut [u8],
    table: &mut [u32],
    answer: &mut [u8],
) -> bool {
    match read_scene(scene, store, table) {
        Err(_) => false,
        Ok(()) => same_answer(line, lock(table, store, answer)),
    }
}

// Whether the record that begins with a scene of that length passes; a line that fails is written.
pub(crate) fn run(
    rt: &impl Print,
    text: &[u8],
    len: usize,
    store: &mut [u8],
    table: &mut [u32],
    answer: &mut [u8],
) -> io::Result<bool> {
    let behind_scene = rest(text, len);
    let line = head(behind_scene, find(behind_scene, LINE_END));
    let passed = passes(part(text, 0, len), line, store, table, answer);
    if !passed {
        rt.write_all(line)?;
        println!(rt)?;
    }
    Ok(passed)
}
