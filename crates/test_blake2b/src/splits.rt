// Inputs fed in parts: every split into two feeds and into three, and feeds of one length with an empty feed before each.
ghost use Rattle.std.specs.Prelude.{◌<◌, ◌≤◌, length};

use super::print_digest;
use blake2b::Blake2b;
use std::io;

// The longest input that is split into two feeds, and the shortest and longest that are split into three.
const TWO: usize = 400;

const THREE_FROM: usize = 256;

const THREE: usize = 272;

// The hash of the data, fed as the bytes before `a`, those from `a` to `b`, and the rest.
fn three_hash(data: &[u8], a: usize, b: usize) -> [u8; 32]
    requires { (a ≤ b) × (b ≤ length «data».now) }
{
    Blake2b::new()
        .update(&data[0..a])
        .update(&data[a..b])
        .update(&data[b..])
        .finish()
        .digest()
}

// How many ends of a second feed that starts at `a` give the hash of the whole.
fn count_ends(data: &[u8], a: usize, whole: &[u8]) -> u64
    requires { a ≤ length «data».now }
{
    let mut count: u64 = 0;
    for b in a..=data.len() {
        let same = three_hash(data, a, b).as_slice() == whole;
        count = count.wrapping_add(u64::from(same));
    }
    count
}

// How many splits into three feeds give the hash of the whole.
fn count_three(data: &[u8], whole: &[u8]) -> u64 {
    let mut count: u64 = 0;
    for a in 0..=data.len() {
        count = count.wrapping_add(count_ends(data, a, whole));
    }
    count
}

// The hash of the data, fed as the bytes before `at`, and the rest.
pub(crate) fn two_hash(data: &[u8], at: usize) -> [u8; 32]
    requires { at ≤ length «data».now }
{
    Blake2b::new()
        .update(&data[0..at])
        .update(&data[at..])
        .finish()
        .digest()
}

// How many splits into two feeds give the hash of the whole.
fn count_two(data: &[u8], whole: &[u8]) -> u64 {
    let mut count: u64 = 0;
    for at in 0..=data.len() {
        let same = two_hash(data, at).as_slice() == whole;
        count = count.wrapping_add(u64::from(same));
    }
    count
}

fn print_count(
    rt: &impl Print,
    name: &str,
    data: &[u8],
    count: u64,
    whole: &[u8],
) -> io::Result<()> {
    print!(rt; "{name} {} splits {count} ", data.len())?;
    print_digest(rt, whole)
}

fn print_two(rt: &impl Print, data: &[u8]) -> io::Result<()> {
    let whole = blake2b::ckb_hash(data);
    print_count(rt, "two", data, count_two(data, &whole), &whole)
}

fn print_three(rt: &impl Print, data: &[u8]) -> io::Result<()> {
    let whole = blake2b::ckb_hash(data);
    print_count(rt, "three", data, count_three(data, &whole), &whole)
}

fn print_splits_of(rt: &impl Print, data: &[u8]) -> io::Result<()> {
    print_two(rt, data)?;
    if THREE_FROM <= data.len() {
        if data.len() <= THREE {
            print_three(rt, data)?;
        }
    }
    Ok(())
}

// The inputs of up to 400 bytes, split into two; those of 256 to 272 into three, too.
pub(crate) fn print_splits(rt: &impl Print, data: &[u8]) -> io::Result<()> {
    for n in 0..=TWO {
        let end = n.min(data.len());
        print_splits_of(rt, &data[0..end])?;
    }
    Ok(())
}

// The hash of the data, fed `step` bytes at a time, with an empty feed before each of them and behind the last.
pub(crate) fn steps_hash(data: &[u8], step: usize) -> [u8; 32]
    requires { 0 < step }
{
    let mut state = Blake2b::new();
    for feed in data.chunks(step) {
        state = state.update(b"").update(feed);
    }
    state.update(b"").finish().digest()
}
