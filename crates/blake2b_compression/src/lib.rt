// The compression function F of RFC 7693, over a work vector of sixteen words.
#![tactic(auto)]

ghost use Rattle.std.specs.Prelude.{◌≡◌, ◌+◌, ◌%◌, ◌<◌, ◌≤◌, T, slice_index};
ghost use Rattle.std.proofs.lemmas.List.Edits.{sets};
ghost use Rattle.blake2b_compression.specs.Compression.{rotr, words_of, add, turn, G, mixed, round, rounds, work_vector, halves, F};
ghost use Rattle.blake2b_compression.specs.Schedule.{permutation};

// The initialization vector.
pub const IV: [u64; 8] = [
    0x6a09e667f3bcc908,
    0xbb67ae8584caa73b,
    0x3c6ef372fe94f82b,
    0xa54ff53a5f1d36f1,
    0x510e527fade682d1,
    0x9b05688c2b3e6c1f,
    0x1f83d9abfb41bd6b,
    0x5be0cd19137e2179,
];

// The message schedule: ten rows of sixteen places.
const SIGMA: [[u8; 16]; 10] = [
    [0, 1, 2, 3, 4, 5, 6, 7, 8, 9, 10, 11, 12, 13, 14, 15],
    [14, 10, 4, 8, 9, 15, 13, 6, 1, 12, 0, 2, 11, 7, 5, 3],
    [11, 8, 12, 0, 5, 2, 15, 13, 10, 14, 3, 6, 7, 1, 9, 4],
    [7, 9, 3, 1, 13, 12, 11, 14, 2, 6, 5, 10, 4, 0, 15, 8],
    [9, 0, 5, 7, 2, 4, 10, 15, 14, 1, 11, 12, 6, 8, 3, 13],
    [2, 12, 6, 10, 0, 11, 8, 3, 4, 13, 7, 5, 15, 14, 1, 9],
    [12, 5, 1, 15, 14, 13, 4, 10, 0, 7, 6, 3, 9, 2, 8, 11],
    [13, 11, 7, 14, 12, 1, 3, 9, 5, 0, 15, 4, 8, 6, 2, 10],
    [6, 15, 14, 9, 11, 3, 0, 8, 12, 2, 13, 7, 1, 4, 10, 5],
    [10, 2, 8, 4, 7, 6, 1, 5, 15, 11, 9, 14, 3, 12, 13, 0],
];

// v[a] := v[a] + v[b] + x
#[tactic(auto, using(crate::proofs::Words::sum_modulo), unfolding(crate::specs::Compression::add))]
fn add_to(v: &mut [u64; 16], a: usize, b: usize, x: u64)
    requires { (a < 16) × (b < 16) }
    ensures { v.new ≡ add a b x v.old }
{
    v[a] = v[a].wrapping_add(v[b]).wrapping_add(x);
}

// x >>> n
#[tactic(auto, using(crate::proofs::Words::rotated))]
fn rotate(x: u64, n: u32) -> u64
    requires { (0 < n) × (n < 64) }
    ensures { result ≡ rotr x n }
{
    x.rotate_right(n)
}

// v[d] := (v[d] ^ v[a]) >>> n
#[tactic(auto, unfolding(crate::specs::Compression::turn))]
fn xor_rotate(v: &mut [u64; 16], d: usize, a: usize, n: u32)
    requires { (d < 16) × ((a < 16) × ((0 < n) × (n < 64))) }
    ensures { v.new ≡ turn d a n v.old }
{
    v[d] = rotate(v[d] ^ v[a], n);
}

// The mixing function G.
#[tactic(auto, unfolding(crate::specs::Compression::G))]
fn mix(v: &mut [u64; 16], a: usize, b: usize, c: usize, d: usize, x: u64, y: u64)
    requires { (a < 16) × ((b < 16) × ((c < 16) × (d < 16))) }
    ensures { v.new ≡ G v.old a b c d x y }
{
    add_to(v, a, b, x);
    xor_rotate(v, d, a, 32);
    add_to(v, c, d, 0);
    xor_rotate(v, b, c, 24);
    add_to(v, a, b, y);
    xor_rotate(v, d, a, 16);
    add_to(v, c, d, 0);
    xor_rotate(v, b, c, 63);
}

// m[s[k]]: the message word that the row s of SIGMA names at place k.
#[tactic(auto, using(crate::proofs::Table::in_row))]
fn message(m: &[u64; 16], s: &[u8; 16], k: usize) -> u64
    requires { (k < 16) × T (permutation s.now) }
    ensures { result ≡ slice_index m.now (slice_index s.now k) }
{
    m[s[k] as usize]
}

// G with the message words that the row s of SIGMA names at places k and k + 1.
#[tactic(auto, unfolding(crate::specs::Compression::mixed))]
fn mix_at(
    v: &mut [u64; 16],
    m: &[u64; 16],
    s: &[u8; 16],
    k: usize,
    a: usize,
    b: usize,
    c: usize,
    d: usize,
)
    requires { ((k + 1 < 16) × T (permutation s.now)) × ((a < 16) × ((b < 16) × ((c < 16) × (d < 16)))) }
    ensures { v.new ≡ mixed m.now s.now k a b c d v.old }
{
    mix(v, a, b, c, d, message(m, s, k), message(m, s, k + 1));
}

// G on the columns and then on the diagonals, by the row s of SIGMA.
#[tactic(auto, unfolding(crate::specs::Compression::round))]
fn mix_round(v: &mut [u64; 16], m: &[u64; 16], s: &[u8; 16])
    requires { T (permutation s.now) }
    ensures { v.new ≡ round m.now s.now v.old }
{
    mix_at(v, m, s, 0, 0, 4, 8, 12);
    mix_at(v, m, s, 2, 1, 5, 9, 13);
    mix_at(v, m, s, 4, 2, 6, 10, 14);
    mix_at(v, m, s, 6, 3, 7, 11, 15);
    mix_at(v, m, s, 8, 0, 5, 10, 15);
    mix_at(v, m, s, 10, 1, 6, 11, 12);
    mix_at(v, m, s, 12, 2, 7, 8, 13);
    mix_at(v, m, s, 14, 3, 4, 9, 14);
}

// The row that follows row i; after the last, the first.
fn next_row(i: usize) -> usize
    requires { i < 10 }
    ensures { result ≡ (i + 1) % 10 }
{
    if i == 9 { 0 } else { i + 1 }
}

// The twelve rounds. The table is copied once, since each use of a constant's name makes the constant anew. The row is counted and
// copied: by `i % 10`, or read in place, a block takes a tenth longer.
#[tactic(auto, using(crate::proofs::Table::row_rule), unfolding(crate::specs::Compression::rounds, crate::specs::Compression::row_of, crate::specs::Compression::SIGMA))]
fn mix_rounds(v: &mut [u64; 16], m: &[u64; 16])
    ensures { v.new ≡ rounds 12 m.now v.old }
{
    let sigma = SIGMA;
    let mut row = 0;
    for _ in 0..12usize {
        let s = sigma[row];
        mix_round(v, m, &s);
        row = next_row(row);
    }
}

// The work vector, from the state, the offset and the last block flag. The offset's upper word, for v[13], is 0.
fn work_vector(h: [u64; 8], t: u64, last: bool) -> [u64; 16]
    ensures { result ≡ work_vector h t last }
{
    let mut v = [0u64; 16];
    v[..8].copy_from_slice(&h);
    v[8..].copy_from_slice(&IV);
    v[12] ^= t;
    if last {
        v[14] ^= u64::MAX;
    }
    v
}

// h[i] ^ v[i] ^ v[i + 8] for i from 0 to 7
fn xor_halves(h: [u64; 8], v: &[u64; 16]) -> [u64; 8]
    ensures { result ≡ halves h v.now }
{
    let mut next = [0u64; 8];
    for i in 0..8 {
        next[i] = h[i] ^ v[i] ^ v[i + 8];
    }
    next
}

// The sixteen words of a block. Bytes past its end count as 0.
pub fn message_words(block: &[u8]) -> [u64; 16]
    ensures { result ≡ words_of 16 block.now }
{
    let mut m = [0u64; 16];
    for i in 0..16 {
        m[i] = octets::u64_at(block, 8 * i);
    }
    m
}

// The compression function F.
#[tactic(auto, unfolding(crate::specs::Compression::F))]
pub fn compress(h: [u64; 8], m: [u64; 16], t: u64, last: bool) -> [u64; 8]
    ensures { result ≡ F h m t last }
{
    let mut v = work_vector(h, t, last);
    mix_rounds(&mut v, &m);
    xor_halves(h, &v)
}
