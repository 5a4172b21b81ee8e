// Writes digests: RFC 7693's Appendix A, and CKB's hash of inputs about a block's length, whole and fed in parts.
#![tactic(auto)]

mod splits; // splits.rt

ghost use Rattle.std.specs.Prelude.{◌≡◌, ◌<◌, min};

use self::splits::{print_splits, steps_hash, two_hash};
use blake2b::Blake2b;
use std::io;

// How many bytes of the pattern are hashed.
const LENGTHS: [usize; 14] = [
    0, 1, 3, 63, 64, 65, 127, 128, 129, 255, 256, 257, 1000, 65536,
];

// Where an input is cut.
const CUTS: [usize; 4] = [1, 63, 128, 129];

// How many bytes are fed at a time.
const STEPS: [usize; 6] = [127, 128, 129, 255, 256, 257];

pub(crate) fn print_digest(rt: &impl Print, digest: &[u8]) -> io::Result<()> {
    for byte in digest {
        print!(rt; "{byte:02x}")?;
    }
    println!(rt)
}

// Byte i is i % 251.
fn pattern() -> [u8; 65536] {
    let mut b = [0u8; 65536];
    for (i, byte) in b.iter_mut().enumerate() {
        *byte = (i % 251) as u8;
    }
    b
}

// The parameter block of Appendix A: 64 bytes of digest, fanout and depth 1.
fn print_appendix_a(rt: &impl Print) -> io::Result<()> {
    let mut p = [0u8; 64];
    p[0] = 64;
    p[2] = 1;
    p[3] = 1;
    print!(rt; "abc ")?;
    print_digest(
        rt,
        &Blake2b::with_parameters(p).update(b"abc").finish().bytes(),
    )
}

fn print_whole(rt: &impl Print, data: &[u8]) -> io::Result<()> {
    print!(rt; "ckb {} whole ", data.len())?;
    print_digest(rt, &blake2b::ckb_hash(data))
}

fn print_cut(rt: &impl Print, data: &[u8], at: usize) -> io::Result<()> {
    print!(rt; "ckb {} cut {at} ", data.len())?;
    print_digest(rt, &two_hash(data, at.min(data.len())))
}

fn print_cuts(rt: &impl Print, data: &[u8]) -> io::Result<()> {
    for at in CUTS {
        print_cut(rt, data, at)?;
    }
    Ok(())
}

fn print_step(rt: &impl Print, data: &[u8], step: usize) -> io::Result<()>
    requires { 0 < step }
{
    print!(rt; "ckb {} feeds of {step} ", data.len())?;
    print_digest(rt, &steps_hash(data, step))
}

fn print_steps(rt: &impl Print, data: &[u8]) -> io::Result<()> {
    for step in STEPS {
        print_step(rt, data, step)?;
    }
    Ok(())
}

fn print_input(rt: &impl Print, data: &[u8]) -> io::Result<()> {
    print_whole(rt, data)?;
    print_cuts(rt, data)?;
    print_steps(rt, data)
}

fn print_lengths(rt: &impl Print, data: &[u8]) -> io::Result<()> {
    for length in LENGTHS {
        let n = length.min(data.len());
        print_input(rt, &data[0..n])?;
    }
    Ok(())
}

fn main(rt: HostRuntime) -> io::Result<()> {
    print_appendix_a(&rt)?;
    let data = pattern();
    print_lengths(&rt, &data)?;
    print_splits(&rt, &data)
}
