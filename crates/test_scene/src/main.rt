// Runs the list of scenes of standard input, each refusal and each boundary of the reader, each with a store and a table without a
// zero. It writes the number of each, and then how many passed: the number is the expected one, and store and table are all zero
// after a refusal, else behind what the scene can fill. The lines of the list:
//   case,NAME,NUMBER,STORE,TABLE   a scene begins: the expected number, and the lengths of the store and the table
//   add,COUNT,TEXT                 the text, COUNT times
//   line,COUNT,TEXT                the same, each with its ending
//   run                            the scene is read
#![tactic(auto)]

mod case; // case.rt

ghost use Rattle.std.specs.Prelude.{◌≡◌, ◌+◌, ◌≤◌, length, IfOk};
ghost use Rattle.protocol.specs.Limits.{scene_max_length, table_min_entries};

use crate::case::{Case, add, begin, run};
use octets::{part, u8_at};
use protocol::{SCENE_MAX_LEN, TABLE_MIN_ENTRIES};
use std::io;
use test_support::{COUNT_LINE_MAX_LEN, Counts, count_line, read_full};
use text::{COMMA, LINE_END, find, split_once, tail};

// What a line of the list, told by its first letter, makes of the case.
fn step(
    rt: &impl Print,
    case: Case,
    line: &[u8],
    scene: &mut [u8],
    store: &mut [u8],
    table: &mut [u32],
) -> io::Result<Case>
    requires { case.at ≤ length scene.old }
    ensures { IfOk result (λ after. after.at ≤ length scene.old) }
{
    let fields = tail(line, find(line, COMMA));
    match u8_at(line, 0) {
        b'c' => begin(rt, case, fields),
        b'a' => Ok(add(case, fields, b"", scene)),
        b'l' => Ok(add(case, fields, b"\n", scene)),
        b'r' => run(rt, case, scene, store, table),
        _ => Ok(case),
    }
}

fn run_all(
    rt: &impl Print,
    list: &[u8],
    scene: &mut [u8],
    store: &mut [u8],
    table: &mut [u32],
) -> io::Result<Case> {
    let mut rest = list;
    let mut case = Case {
        expected: 0,
        store: 0,
        table: 0,
        at: 0,
        counts: Counts {
            passed: 0,
            failed: 0,
        },
    };
    while let Some((line, after)) = split_once(rest, LINE_END) {
        case = step(rt, case, line, scene, store, table)?;
        rest = after;
    }
    Ok(case)
}

// Room for a scene that is one byte too long.
fn long_buffer() -> [u8; SCENE_MAX_LEN + 1]
    ensures { scene_max_length + 1 ≡ length result }
{
    [1; SCENE_MAX_LEN + 1]
}

fn words() -> [u32; TABLE_MIN_ENTRIES]
    ensures { table_min_entries ≡ length result }
{
    [1; TABLE_MIN_ENTRIES]
}

fn main(rt: HostRuntime) -> io::Result<()> {
    let mut text = [0u8; 65536];
    let n = read_full(&mut rt.reader(), &mut text)?;
    let mut scene = long_buffer();
    let mut store = long_buffer();
    let mut table = words();
    let case = run_all(&rt, &text[..n], &mut scene, &mut store, &mut table)?;
    let mut line = [0u8; COUNT_LINE_MAX_LEN];
    let counts = case.counts;
    let len = count_line(counts, &mut line);
    rt.write_all(part(&line, 0, len))
}
