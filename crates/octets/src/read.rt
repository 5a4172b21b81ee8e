// Reads of numbers and of parts.
ghost use Rattle.std.specs.Prelude.{◌≡◌, ◌+◌, ◌-◌, ◌^◌, ◌≤◌, ◌<◌, leb, length, take, drop};
ghost use Rattle.octets.specs.Le.{number_at};

// Whether `n` places from `at` on lie within a length.
pub fn fits(len: usize, at: usize, n: usize) -> bool
    ensures { result ≡ leb (at + n) len }
{
    at <= len && n <= len - at
}

// The number in `width` bytes that the slice has, from the last one down.
#[tactic(auto, using(crate::proofs::LeLaws::read_turns))]
fn read_le(s: &[u8], at: usize, width: usize) -> u64
    requires { (width ≤ 8) × (width ≤ length s.now - at) }
    ensures { result ≡ number_at s.now at width }
{
    let mut value: u64 = 0;
    for i in (0..width).rev() {
        value = u64::from(s[at + i]) + 256 * value;
    }
    value
}

// The number in at most 8 bytes, of which the slice may lack some.
fn read_present(s: &[u8], at: usize, width: usize) -> u64
    requires { width ≤ 8 }
    ensures value { result ≡ number_at s.now at width }
    ensures upper_bound { result < 256 ^ width }
{
    if s.len() <= at {
        return 0;
    }
    let room = s.len() - at;
    if width <= room {
        read_le(s, at, width)
    } else {
        read_le(s, at, room)
    }
}

// The number in one byte, and in two, four and eight. Four functions, since a generic one would name its type at every call.
pub fn u8_at(s: &[u8], at: usize) -> u8
    ensures { result ≡ number_at s.now at 1 }
{
    read_present(s, at, 1) as u8
}

pub fn u16_at(s: &[u8], at: usize) -> u16
    ensures { result ≡ number_at s.now at 2 }
{
    read_present(s, at, 2) as u16
}

pub fn u32_at(s: &[u8], at: usize) -> u32
    ensures { result ≡ number_at s.now at 4 }
{
    read_present(s, at, 4) as u32
}

pub fn u64_at(s: &[u8], at: usize) -> u64
    ensures { result ≡ number_at s.now at 8 }
{
    read_present(s, at, 8)
}

// The `n` bytes from `at` on, as far as they are there.
pub fn part(s: &[u8], at: usize, n: usize) -> &[u8]
    ensures { result.now ≡ take n (drop at s.now) }
{
    let found = rest(s, at);
    found.get(..n).unwrap_or(found)
}

// The bytes from `at` on.
pub fn rest(s: &[u8], at: usize) -> &[u8]
    ensures { result.now ≡ drop at s.now }
{
    s.get(at..).unwrap_or(&[])
}
