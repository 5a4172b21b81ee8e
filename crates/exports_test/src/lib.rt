// A function for the tests alone: CKB's hash fed in parts, beside the reference and for its speed.
#![tactic(auto)]

ghost use Rattle.std.specs.Prelude.{◌≡◌, Ok, ◌≤◌, ◌<◌, length};
ghost use Rattle.blake2b.specs.State.{ckb_hash};
ghost use Rattle.protocol.specs.Rows.{◌then◌};
ghost use Rattle.export_answers.specs.Stored.{StoresHash};
ghost use Rattle.exports_test.specs.Parts.{parts_fault};

use blake2b::Blake2b;
use export_answers::store_hash;
use protocol::{ProtocolError, require};

// Where the part of `step` bytes that starts at `at` ends. A step of 0 takes the rest.
fn part_end(at: usize, step: usize, len: usize) -> usize
    requires { at < len }
    ensures { (at < result) × (result ≤ len) }
{
    if step == 0 {
        return len;
    }
    if len - at <= step { len } else { at + step }
}

// CKB's hash of the data, fed as its first `first` bytes, and then `step` bytes at a time; by places and not by `chunks`, which a step
// of 0 has none of.
fn parts_hash(data: &[u8], first: usize, step: usize) -> [u8; 32]
    requires { first ≤ length «data».now }
    ensures { result ≡ ckb_hash «data».now }
{
    let mut at = first;
    let mut state = Blake2b::new().update(&data[0..at]);
    while at < data.len() {
        let end = part_end(at, step, data.len());
        state = state.update(&data[at..end]);
        at = end;
    }
    state.finish().digest()
}

// The same, or 7 where the first part is longer than the data.
#[tactic(auto, unfolding(protocol::specs::Rows::decide, crate::specs::Parts::parts_fault))]
fn lent_hash(data: &[u8], first: usize, step: usize) -> Result<[u8; 32], ProtocolError>
    ensures { result ≡ parts_fault «data».now first then Ok (ckb_hash «data».now) }
{
    require(first <= data.len(), ProtocolError::SlicesDisagree)?;
    Ok(parts_hash(data, first, step))
}

// As `fowlcredenza_ckb_hash` of crates/exports, with the data fed as its first `first` bytes, and then `step` bytes at a time (0: the rest at
// once). A `first` past the end of the data is 7.
#[unsafe(no_mangle)]
pub extern "C" fn fowlcredenza_ckb_hash_parts(
    data: &[u8],
    first: usize,
    step: usize,
    out: &mut [u8],
) -> u32
    ensures { StoresHash (parts_fault «data».now first then Ok (ckb_hash «data».now)) out.old result out.new }
{
    store_hash(lent_hash(data, first, step), out)
}
