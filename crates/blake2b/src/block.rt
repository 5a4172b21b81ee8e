// The block that is being filled: its next place, how full it is, how many bytes fill it up, and the words once a full one is compressed.
ghost use Rattle.std.specs.Prelude.{◌≡◌, ◌-◌, ◌%◌, ◌≤◌, min};
ghost use Rattle.blake2b.specs.State.{waiting, flushed_words};

use super::Blake2b;
use blake2b_compression::{compress, message_words};

// The place of the next byte.
pub(crate) fn next_place(fed: u64) -> usize
    ensures { result ≡ fed % 128 }
{
    fed as usize % Blake2b::BLOCK
}

// How many bytes of the block wait to be compressed.
#[tactic(auto, unfolding(crate::specs::State::waiting))]
pub(crate) fn waiting_bytes(fed: u64) -> usize
    ensures { (result ≡ waiting fed) × (result ≤ 128) }
{
    if fed == 0 {
        return 0;
    }
    (fed - 1) as usize % Blake2b::BLOCK + 1
}

// How many of `len` bytes fill up the block that waits with a part.
pub(crate) fn fill_bytes(fed: u64, len: usize) -> usize
    ensures { result ≡ min len ((128 - fed % 128) % 128) }
{
    let room = (Blake2b::BLOCK - next_place(fed)) % Blake2b::BLOCK;
    len.min(room)
}

// The words once a full block is compressed.
#[tactic(auto, unfolding(crate::specs::State::flushed_words))]
pub(crate) fn flush(h: [u64; 8], block: &[u8], fed: u64) -> [u64; 8]
    ensures { result ≡ flushed_words h block.now fed }
{
    if waiting_bytes(fed) == Blake2b::BLOCK {
        compress(h, message_words(block), fed, false)
    } else {
        h
    }
}
