// Stores of numbers and of runs of bytes.
ghost use Rattle.std.specs.Prelude.{◌≡◌, ◌+◌, ◌≤◌, length};
ghost use Rattle.std.proofs.lemmas.List.Edits.{sets};
ghost use Rattle.octets.specs.Le.{to_le};

#[tactic(auto, using(crate::proofs::LeLaws::write_turns))]
fn write_le(out: &mut [u8], at: usize, width: usize, value: u64)
    requires { at + width ≤ length out.old }
    ensures { out.new ≡ sets out.old at (to_le width value) }
{
    let mut rest = value;
    for byte in &mut out[at..at + width] {
        *byte = (rest % 256) as u8;
        rest /= 256;
    }
}

// Stores the lowest `width` bytes of `value` from `at` on.
#[tactic(auto, using(crate::proofs::Stores::store_laws, crate::proofs::LeLaws::number_stores))]
pub fn store_number(out: &mut [u8], at: usize, width: usize, value: u64)
    ensures { out.new ≡ sets out.old at (to_le width value) }
{
    if at < out.len() {
        let room = out.len() - at;
        if width <= room {
            write_le(out, at, width, value);
        } else {
            write_le(out, at, room, value);
        }
    }
}

// A loop, and not `copy_from_slice`, which calls memmove: the archives for C need no name from outside for it.
#[tactic(auto, using(crate::proofs::Stores::run_turns))]
fn write_bytes(out: &mut [u8], at: usize, run: &[u8])
    requires { at + length run.now ≤ length out.old }
    ensures { out.new ≡ sets out.old at run.now }
{
    for (i, &byte) in run.iter().enumerate() {
        out[at + i] = byte;
    }
}

// Stores the bytes of `run` from `at` on.
#[tactic(auto, using(crate::proofs::Stores::store_laws))]
pub fn store_bytes(out: &mut [u8], at: usize, run: &[u8])
    ensures { out.new ≡ sets out.old at run.now }
{
    if at < out.len() {
        let room = out.len() - at;
        if run.len() <= room {
            write_bytes(out, at, run);
        } else {
            write_bytes(out, at, &run[..room]);
        }
    }
}
