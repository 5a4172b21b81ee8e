// Bytes stored at the front of a buffer.
ghost use Rattle.std.specs.Prelude.{◌≡◌};
ghost use Rattle.export_answers.specs.Stored.{StoresBytes, StoresHash, StoresPart};

use octets::store_bytes;
use protocol::{ProtocolError, error_number};

pub(crate) fn too_short() -> u32
    ensures { result ≡ 5 }
{
    error_number(ProtocolError::BufferTooShort) as u32
}

// Stores the bytes, or 5.
fn store_front(bytes: &[u8], out: &mut [u8]) -> u32
    ensures { StoresBytes 0 bytes.now out.old result out.new }
{
    if bytes.len() <= out.len() {
        store_bytes(out, 0, bytes);
        0
    } else {
        too_short()
    }
}

// A refusal's number; else the hash is stored, or 5.
#[tactic(auto, unfolding(crate::specs::Stored::answer_bytes))]
pub fn store_hash(answer: Result<[u8; 32], ProtocolError>, out: &mut [u8]) -> u32
    ensures { StoresHash answer out.old result out.new }
{
    match answer {
        Err(error) => error_number(error) as u32,
        Ok(hash) => store_front(&hash, out),
    }
}

// A refusal's number; where it is 0 the part is stored and its length goes to `len`, or 5.
pub fn store_part(refusal: u8, part: &[u8], out: &mut [u8], len: &mut usize) -> u32
    ensures { StoresPart refusal part.now out.old len.old result out.new len.new }
{
    if refusal != 0 {
        return refusal as u32;
    }
    let number = store_front(part, out);
    if number == 0 {
        *len = part.len();
    }
    number
}
