// Decides the scenes of standard input, each ended by a line `end`, and writes the program's line of each.
#![tactic(auto)]

use decide_scene::program_line;
use octets::same_bytes;
use std::io;
use test_support::read_full;
use text::{LINE_END, head, split_once};

fn print_line(rt: &impl Print, scene: &[u8]) -> io::Result<()> {
    rt.write_all(program_line(scene).as_bytes())
}

fn run_all(rt: &impl Print, list: &[u8]) -> io::Result<()> {
    let mut rest = list;
    let mut scene = list;
    let mut n: usize = 0;
    while let Some((line, after)) = split_once(rest, LINE_END) {
        rest = after;
        if same_bytes(line, b"end") {
            print_line(rt, head(scene, n))?;
            scene = after;
            n = 0;
        } else {
            n = n.wrapping_add(line.len() + 1);
        }
    }
    Ok(())
}

fn main(rt: HostRuntime) -> io::Result<()> {
    let mut text = [0u8; 65536];
    let n = read_full(&mut rt.reader(), &mut text)?;
    run_all(&rt, &text[..n])
}
