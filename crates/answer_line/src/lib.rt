// The line that the program prints.
#![tactic(auto)]

ghost use Rattle.std.specs.Prelude.{◌≡◌, ◌∷◌, ◌+◌, ◌≤◌, length};
ghost use Rattle.std.proofs.lemmas.List.Edits.{sets};
ghost use Rattle.text.specs.Text.{comma};
ghost use Rattle.text.specs.Print.{number_text};
ghost use Rattle.answer_line.specs.Line.{digest_text, fee_text, line_of};

use octets::store_bytes;
use text::{COMMA, LINE_END, put_byte, put_decimal, put_hex};

// A comma and a number from `at` on; where they end.
#[tactic(auto, using(crate::proofs::Stored::behind_comma))]
fn put_number(out: &mut [u8], at: usize, value: u64) -> usize
    requires { at ≤ 1000 }
    ensures value { result ≡ at + length (comma ∷ number_text value) }
    ensures upper_bound { result ≤ at + 21 }
    ensures out_after { out.new ≡ sets out.old at (comma ∷ number_text value) }
{
    let start = at + 1;
    put_byte(out, at, COMMA);
    start + put_decimal(out, start, value)
}

// A comma and the digest, if there is one, from `at` on; where they end.
#[tactic(auto, unfolding(crate::specs::Line::digest_text), using(crate::proofs::Stored::behind_comma))]
fn put_digest(out: &mut [u8], at: usize, reached: bool, digest: &[u8; 32]) -> usize
    requires { at ≤ 1000 }
    ensures value { result ≡ at + length (comma ∷ digest_text reached digest.now) }
    ensures upper_bound { result ≤ at + 65 }
    ensures out_after { out.new ≡ sets out.old at (comma ∷ digest_text reached digest.now) }
{
    let start = at + 1;
    put_byte(out, at, COMMA);
    if reached {
        start + put_hex(out, start, digest)
    } else {
        start
    }
}

// A comma and the fee, if the number is an acceptance's, from `at` on; where they end.
#[tactic(auto, unfolding(crate::specs::Line::fee_text))]
fn put_fee(out: &mut [u8], at: usize, number: u8, fee: u64) -> usize
    requires { at ≤ 1000 }
    ensures value { result ≡ at + length (comma ∷ fee_text number fee) }
    ensures upper_bound { result ≤ at + 21 }
    ensures out_after { out.new ≡ sets out.old at (comma ∷ fee_text number fee) }
{
    if number == 0 {
        put_number(out, at, fee)
    } else {
        put_byte(out, at, COMMA);
        at + 1
    }
}

// Stores the line from the front of `out` on, as far as there is room, and says how long it is.
pub fn answer_line(
    number: u8,
    count: usize,
    total: usize,
    reached: bool,
    digest: [u8; 32],
    fee: u64,
    out: &mut [u8],
) -> usize
    ensures value { result ≡ length (line_of number count total reached digest fee) }
    ensures upper_bound { result ≤ 156 }
    ensures out_after { out.new ≡ sets out.old 0 (line_of number count total reached digest fee) }
{
    store_bytes(out, 0, b"answer");
    let number_end = put_number(out, 6, u64::from(number));
    let count_end = put_number(out, number_end, count as u64);
    let total_end = put_number(out, count_end, total as u64);
    let digest_end = put_digest(out, total_end, reached, &digest);
    let fee_end = put_fee(out, digest_end, number, fee);
    put_byte(out, fee_end, LINE_END);
    fee_end + 1
}
