// The program: decides the scene of standard input, and prints one line `answer,NUMBER,COUNT,LENGTH,DIGEST,FEE`. Where standard
// input cannot be read it prints none, and says so on standard error.
#![tactic(auto)]

ghost use Rattle.std.specs.Prelude.{◌≡◌, ◌+◌, length};
ghost use Rattle.std.specs.Io.{ReadsAtMost};
ghost use Rattle.decide_scene.specs.Decided.{program_scene_max_length};

use decide_scene::{PROGRAM_SCENE_MAX_LEN, program_line};
use std::io;
use std::io::Read;

// Reads to the end of the input, or as far as there is room. The loop counts bytes, since std
// fills a `Vec` alone, and there is no heap.
fn read_all<R: Read>(reader: &mut R, room: &mut [u8]) -> io::Result<usize>
    ensures { ReadsAtMost result room.new }
{
    let mut done: usize = 0;
    while done < room.len() {
        let n = reader.read(&mut room[done..])?;
        if n == 0 {
            break;
        }
        done += n;
    }
    Ok(done)
}

// A line that is cut short has no byte 10.
fn print_answer(rt: &(impl Print + Eprint), scene: &[u8]) {
    let line = program_line(scene);
    if rt.write_all(line.as_bytes()).is_err() {
        let _ = rt.eprintln("account_lock_cli: standard output cannot be written");
    }
}

// Room for a scene that is one byte too long, so that it is seen to be.
fn scene_buffer() -> [u8; PROGRAM_SCENE_MAX_LEN + 1]
    ensures { program_scene_max_length + 1 ≡ length result }
{
    [0; PROGRAM_SCENE_MAX_LEN + 1]
}

fn main(rt: HostRuntime) {
    let mut scene = scene_buffer();
    match read_all(&mut rt.reader(), &mut scene) {
        Ok(n) => print_answer(&rt, &scene[..n]),
        Err(_) => {
            let _ = rt.eprintln("account_lock_cli: standard input cannot be read");
        }
    }
}
