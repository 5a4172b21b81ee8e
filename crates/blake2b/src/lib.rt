// BLAKE2b of RFC 7693, without a key: a hash state that is begun from a parameter block, fed and finished.
#![tactic(auto)]

mod block; // block.rt

ghost use Rattle.std.specs.Prelude.{◌≡◌, take};
ghost use Rattle.std.proofs.lemmas.List.Edits.{sets};
ghost use Rattle.blake2b.specs.Rfc7693.{start_words, bytes_of};
ghost use Rattle.blake2b.specs.State.{begun, fed_all, finished, ckb_parameters, ckb_hash};

use self::block::{fill_bytes, flush, next_place};
use blake2b_compression::{compress, message_words};

// A hash state: the chained words, the block that is being filled, and the number of bytes fed.
#[derive(Drop)]
pub struct Blake2b {
    h: [u64; 8],
    block: [u8; Blake2b::BLOCK],
    fed: u64,
}

// The start value xor the words of a parameter block.
fn start_words(p: [u8; 64]) -> [u64; 8]
    ensures { result ≡ start_words p }
{
    let mut h = Blake2b::IV;
    for i in 0..8 {
        h[i] ^= octets::u64_at(&p, 8 * i);
    }
    h
}

// Stores the bytes of the words, as far as there is room.
#[tactic(auto, using(crate::proofs::Bytes::word_stored, crate::proofs::Bytes::none_stored))]
fn store_words(out: &mut [u8], h: [u64; 8])
    ensures { out.new ≡ sets out.old 0 (bytes_of h) }
{
    for i in 0..8 {
        octets::store_number(out, 8 * i, 8, h[i]);
    }
}

impl Blake2b {
    // The length of a block.
    pub const BLOCK: usize = 128;

    // The initialization vector.
    pub const IV: [u64; 8] = blake2b_compression::IV;

    // A state that nothing was fed to, from a parameter block.
    #[tactic(auto, unfolding(crate::specs::State::begun))]
    pub fn with_parameters(p: [u8; 64]) -> Self
        ensures { result ≡ begun p }
    {
        Self {
            h: start_words(p),
            block: [0; Self::BLOCK],
            fed: 0,
        }
    }

    // A state for CKB's hash: 32 bytes out, fanout and depth 1, and the personal bytes.
    #[tactic(auto, unfolding(crate::specs::State::ckb_parameters))]
    pub fn new() -> Self
        ensures { result ≡ begun ckb_parameters }
    {
        let mut p = [0u8; 64];
        p[0] = 32;
        p[2] = 1;
        p[3] = 1;
        octets::store_bytes(&mut p, 48, b"ckb-default-hash");
        Self::with_parameters(p)
    }

    // All of the data is fed. A waiting part is filled up first. A whole block with a further byte behind it is compressed from the data
    // itself, without a copy. What is left begins a block. The loop works on locals, so that the state is not copied at each block;
    // `chunks` would take the last whole block too.
    pub fn update(mut self, data: &[u8]) -> Self
        ensures { result ≡ fed_all self «data».now }
    {
        let mut h = self.h;
        let mut block = self.block;
        let mut fed = self.fed;
        let mut at = fill_bytes(fed, data.len());
        octets::store_bytes(&mut block, next_place(fed), &data[0..at]);
        fed = fed.wrapping_add(at as u64);
        if at < data.len() {
            let first = flush(h, &block, fed);
            h = first;
            while Self::BLOCK < data.len() - at {
                let end = at + Self::BLOCK;
                fed = fed.wrapping_add(Self::BLOCK as u64);
                let next = flush(h, &data[at..end], fed);
                h = next;
                at = end;
            }
            block = [0; Self::BLOCK];
            octets::store_bytes(&mut block, 0, &data[at..]);
            fed = fed.wrapping_add((data.len() - at) as u64);
        }
        self.h = h;
        self.block = block;
        self.fed = fed;
        self
    }

    // The last block is compressed.
    #[tactic(auto, unfolding(crate::specs::State::finished))]
    pub fn finish(mut self) -> Self
        ensures { result ≡ finished self }
    {
        self.h = compress(self.h, message_words(&self.block), self.fed, true);
        self
    }

    // The first 32 bytes of the words: the digest of a finished state.
    #[tactic(auto, using(crate::proofs::Bytes::first_bytes))]
    pub fn digest(self) -> [u8; 32]
        ensures { result ≡ take 32 (bytes_of self.h) }
    {
        let mut out = [0u8; 32];
        store_words(&mut out, self.h);
        out
    }

    // All 64 bytes of the words.
    #[tactic(auto, using(crate::proofs::Bytes::all_bytes))]
    pub fn bytes(self) -> [u8; 64]
        ensures { result ≡ bytes_of self.h }
    {
        let mut out = [0u8; 64];
        store_words(&mut out, self.h);
        out
    }
}

// CKB's hash of a slice.
#[tactic(auto, using(crate::proofs::Chain::hash_fed))]
pub fn ckb_hash(data: &[u8]) -> [u8; 32]
    ensures { result ≡ ckb_hash «data».now }
{
    Blake2b::new().update(data).finish().digest()
}
