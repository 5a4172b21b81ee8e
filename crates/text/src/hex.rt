// Lower-case hexadecimal digits.
ghost use Rattle.std.specs.Prelude.{◌≡◌, cond, ◌+◌, ◌-◌, ◌/◌, ◌<◌, ◌≤◌, length};
ghost use Rattle.std.proofs.lemmas.List.Edits.{sets};
ghost use Rattle.text.specs.Text.{in_range, is_hex, hex_val, hex_ok, hex_bytes};

// Whether x is a digit.
fn is_hex(x: u8) -> bool
    ensures { result ≡ is_hex x }
{
    matches!(x, b'0'..=b'9' | b'a'..=b'f')
}

// x less base where x is from low to high, else 0.
fn offset(x: u8, low: u8, high: u8, base: u8) -> u8
    requires { base ≤ low }
    ensures value { result ≡ cond (in_range low high x) (x - base) 0 }
    ensures upper_bound { result ≤ high - base }
{
    if low <= x && x <= high { x - base } else { 0 }
}

// The value of a digit; 0 for any other byte. It is a sum, of which one part is 0, since a branch on random digits is slow.
#[tactic(auto, using(crate::proofs::HexLaws::hex_sums))]
pub fn hex_value(x: u8) -> u8
    ensures value { result ≡ hex_val x }
    ensures upper_bound { result < 16 }
{
    offset(x, b'0', b'9', b'0') + offset(x, b'a', b'f', b'a' - 10)
}

// Whether s has two digits for each byte.
#[tactic(auto, unfolding(crate::specs::Text::hex_ok), using(octets::proofs::Every::every_turns))]
pub fn hex_ok(s: &[u8]) -> bool
    ensures { result ≡ hex_ok s.now }
{
    let mut ok = s.len() % 2 == 0;
    for &byte in s {
        ok &= is_hex(byte);
    }
    ok
}

#[tactic(auto, using(crate::proofs::HexLaws::hex_turns))]
fn decode_within(src: &[u8], dst: &mut [u8], at: usize)
    requires { at + length src.now / 2 ≤ length dst.old }
    ensures { dst.new ≡ sets dst.old at (hex_bytes src.now) }
{
    for i in 0..src.len() / 2 {
        dst[at + i] = hex_value(src[2 * i]) * 16 + hex_value(src[2 * i + 1]);
    }
}

// Stores the bytes that src has the digits of into dst, from at on.
#[tactic(auto, using(octets::proofs::Stores::store_laws, crate::proofs::HexLaws::hex_takes))]
pub fn decode(src: &[u8], dst: &mut [u8], at: usize)
    ensures { dst.new ≡ sets dst.old at (hex_bytes src.now) }
{
    if at < dst.len() {
        let room = dst.len() - at;
        if src.len() / 2 <= room {
            decode_within(src, dst, at);
        } else {
            decode_within(&src[..2 * room], dst, at);
        }
    }
}
