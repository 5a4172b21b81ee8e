// A text cut at a separator.
ghost use Rattle.std.specs.Prelude.{◌≡◌, [], ◌∷◌, ◌+◌, ◌-◌, IfNone, IfSome, min, length, take, drop};
ghost use Rattle.text.specs.Text.{pieces, Cut};

use octets::{part, rest};

// The bytes that end a line and part its fields.
pub const LINE_END: u8 = b'\n';

pub const COMMA: u8 = b',';

// The index of the first c in s, or the length of s.
pub fn find(s: &[u8], c: u8) -> usize
    ensures { Cut c s.now result }
{
    s.iter().position(|&byte| byte == c).unwrap_or(s.len())
}

// The piece of s before index e.
pub fn head(s: &[u8], e: usize) -> &[u8]
    ensures result_value { result.now ≡ take e s.now }
    ensures result_len { length result.now ≡ min e (length s.now) }
{
    part(s, 0, e)
}

// What follows the separator at e.
pub fn tail(s: &[u8], e: usize) -> &[u8]
    ensures result_value { result.now ≡ drop (e + 1) s.now }
    ensures result_len { length result.now ≡ length s.now - (e + 1) }
{
    rest(rest(s, e), 1)
}

// What stands before the first c and what behind it, none where there is no c.
pub fn split_once(s: &[u8], c: u8) -> Option<(&[u8], &[u8])>
    ensures none { IfNone result (pieces c s.now ≡ s.now ∷ []) }
    ensures some { IfSome result (λ cut. pieces c s.now ≡ cut.0.now ∷ pieces c cut.1.now) }
    ensures some_place { IfSome result (λ cut.
        (cut.0.now ≡ take (length cut.0.now) s.now) × (cut.1.now ≡ drop (length cut.0.now + 1) s.now)) }
    ensures some_len { IfSome result (λ cut. length cut.0.now + 1 + length cut.1.now ≡ length s.now) }
{
    let end = find(s, c);
    if end == s.len() {
        return None;
    }
    Some((head(s, end), tail(s, end)))
}

// How many pieces c cuts s into. A sum, and not `filter` and `count`, so that the compiler tests several bytes at once.
#[tactic(auto, using(crate::proofs::Pieces::count_turns))]
pub fn count(s: &[u8], c: u8) -> usize
    ensures { result ≡ length (pieces c s.now) }
{
    let mut found = 1;
    for &byte in s {
        found += usize::from(byte == c);
    }
    found
}
