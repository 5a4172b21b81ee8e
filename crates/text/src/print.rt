// Hexadecimal and decimal text put into a slice from an index on. What has no room is not put.
ghost use Rattle.std.specs.Prelude.{◌≡◌, [], ◌∷◌, ◌+◌, ◌*◌, ◌≤◌, ◌<◌, length};
ghost use Rattle.std.proofs.lemmas.List.Edits.{sets};
ghost use Rattle.text.specs.Print.{digit_text, hex_text, decimal_text, number_text};

use crate::cut::head;

// The most digits that a decimal u64 has.
const DECIMAL_MAX_DIGITS: usize = 20;

// Puts one byte.
#[tactic(auto, using(octets::proofs::Stores::store_laws))]
pub fn put_byte(out: &mut [u8], at: usize, byte: u8)
    ensures { out.new ≡ sets out.old at (byte ∷ []) }
{
    if at < out.len() {
        out[at] = byte;
    }
}

// At most `most` digits of a value; how many it has.
#[tactic(auto, using(crate::proofs::PrintLaws::decimal_digits))]
fn put_digits(out: &mut [u8], at: usize, most: usize, value: u64) -> usize
    requires { (at ≤ length out.old) × (most ≤ 20) }
    ensures value { result ≡ length (decimal_text most value) }
    ensures upper_bound { result ≤ most }
    ensures out_after { out.new ≡ sets out.old at (decimal_text most value) }
{
    if most == 0 {
        return 0;
    }
    if value < 10 {
        put_byte(out, at, b'0' + value as u8);
        return 1;
    }
    let n = put_digits(out, at, most - 1, value / 10);
    put_byte(out, at + n, b'0' + (value % 10) as u8);
    n + 1
}

// Puts the decimal form of a value, and says how many digits it has.
#[tactic(auto, unfolding(crate::specs::Print::number_text), using(crate::proofs::PrintLaws::sets_from))]
pub fn put_decimal(out: &mut [u8], at: usize, value: u64) -> usize
    ensures value { result ≡ length (number_text value) }
    ensures upper_bound { result ≤ 20 }
    ensures out_after { out.new ≡ sets out.old at (number_text value) }
{
    let start = at.min(out.len());
    put_digits(out, start, DECIMAL_MAX_DIGITS, value)
}

// The hexadecimal digit of a value below 16.
#[tactic(auto, unfolding(crate::specs::Print::digit_text))]
fn hex_digit(value: u8) -> u8
    requires { value < 16 }
    ensures { result ≡ digit_text value }
{
    if value < 10 {
        b'0' + value
    } else {
        b'a' - 10 + value
    }
}

// Two digits for each byte, where twice the length of `out` is not passed.
#[tactic(auto, using(crate::proofs::PrintLaws::hex_text_turns))]
fn put_hex_within(out: &mut [u8], at: usize, bytes: &[u8])
    requires { at + 2 * length bytes.now ≤ 2 * length out.old }
    ensures { out.new ≡ sets out.old at (hex_text bytes.now) }
{
    for (i, &byte) in bytes.iter().enumerate() {
        put_byte(out, at + 2 * i, hex_digit(byte / 16));
        put_byte(out, at + 2 * i + 1, hex_digit(byte % 16));
    }
}

// Puts two lower-case hexadecimal digits for each byte, and says how many digits those are.
#[tactic(auto, using(octets::proofs::Stores::store_laws, crate::proofs::PrintLaws::hex_text_takes))]
pub fn put_hex(out: &mut [u8], at: usize, bytes: &[u8]) -> usize
    ensures value { result ≡ length (hex_text bytes.now) }
    ensures out_after { out.new ≡ sets out.old at (hex_text bytes.now) }
{
    let digits = 2 * bytes.len();
    if at < out.len() {
        let room = out.len() - at;
        put_hex_within(out, at, head(bytes, room));
    }
    digits
}
