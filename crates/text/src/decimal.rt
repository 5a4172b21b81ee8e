// Decimal numbers.
ghost use Rattle.std.specs.Prelude.{◌≡◌, true};
ghost use Rattle.octets.specs.Lists.{every};
ghost use Rattle.text.specs.Text.{in_range, number_of, decimal_of};

fn is_between(byte: u8, low: u8, high: u8) -> bool
    ensures { result ≡ in_range low high byte }
{
    low <= byte && byte <= high
}

// Whether each byte of s is from low to high. The loop is not left early, so that the compiler tests several at once.
#[tactic(auto, using(octets::proofs::Every::every_turns))]
pub fn all_between(s: &[u8], low: u8, high: u8) -> bool
    ensures { result ≡ every (in_range low high) s.now }
{
    let mut ok = true;
    for &byte in s {
        ok &= is_between(byte, low, high);
    }
    ok
}

// The number that the digits s stand for.
#[tactic(auto, unfolding(crate::specs::Text::number_of), using(crate::proofs::DecimalLaws::decimal_turns))]
fn value(s: &[u8]) -> Option<u64>
    requires { every (in_range 48 57) s.now ≡ true }
    ensures { result ≡ number_of s.now }
{
    let mut value: u64 = 0;
    for &digit in s {
        value = value.checked_mul(10)?.checked_add(u64::from(digit - b'0'))?;
    }
    Some(value)
}

// The number that s is the decimal form of.
#[tactic(auto, unfolding(crate::specs::Text::decimal_of))]
pub fn read_decimal(s: &[u8]) -> Option<u64>
    ensures { result ≡ decimal_of s.now }
{
    let plain = !s.is_empty() && all_between(s, b'0', b'9') && (s.len() == 1 || s[0] != b'0');
    if plain { value(s) } else { None }
}
