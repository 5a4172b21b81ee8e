// Reads and decides recorded scenes, and compares with the recorded answers: 40 where a hash differs, 44 where an aux is too long,
// 49 where a successor carries a session, RFC 0017's where a recovery's wait is answered otherwise than by plain numbers, else what
// the original answered; and where that is 0, 39 or 48 by the totals of the capacities, or the fee. It writes the answers that are
// not given, and then how many passed. Standard input has for each scene
//   LENGTH                                  its length
//   the scene
//   answer,NUMBER,COUNT,LENGTH,DIGEST,FEE   its answer
#![tactic(auto)]

mod record; // record.rt

ghost use Rattle.std.specs.Prelude.{◌≡◌, length};
ghost use Rattle.protocol.specs.Limits.{answer_buffer_length, table_min_entries};

use crate::record::{behind_record, run};
use octets::part;
use protocol::{ANSWER_BUFFER_LEN, TABLE_MIN_ENTRIES};
use std::io;
use test_support::{COUNT_LINE_MAX_LEN, Counts, count_line, counted, read_full, value};
use text::{LINE_END, split_once};

fn run_all(
    rt: &impl Print,
    records: &[u8],
    store: &mut [u8],
    table: &mut [u32],
    answer: &mut [u8],
) -> io::Result<Counts> {
    let mut rest = records;
    let mut counts = Counts {
        passed: 0,
        failed: 0,
    };
    while let Some((line, text)) = split_once(rest, LINE_END) {
        let len = value(line) as usize;
        let passed = run(rt, text, len, store, table, answer)?;
        counts = counted(counts, passed);
        rest = behind_record(text, len);
    }
    Ok(counts)
}

// Room for all records.
fn records() -> [u8; 3407872]
    ensures { 3407872 ≡ length result }
{
    [0; 3407872]
}

// Room for the bytes of any of the scenes, and for any answer.
fn bytes() -> [u8; ANSWER_BUFFER_LEN]
    ensures { answer_buffer_length ≡ length result }
{
    [0; ANSWER_BUFFER_LEN]
}

fn words() -> [u32; TABLE_MIN_ENTRIES]
    ensures { table_min_entries ≡ length result }
{
    [0; TABLE_MIN_ENTRIES]
}

fn main(rt: HostRuntime) -> io::Result<()> {
    let mut text = records();
    let n = read_full(&mut rt.reader(), &mut text)?;
    let mut store = bytes();
    let mut table = words();
    let mut answer = bytes();
    let counts = run_all(&rt, &text[..n], &mut store, &mut table, &mut answer)?;
    let mut line = [0u8; COUNT_LINE_MAX_LEN];
    let len = count_line(counts, &mut line);
    rt.write_all(part(&line, 0, len))
}
