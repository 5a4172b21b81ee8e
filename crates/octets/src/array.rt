// Bytes of a slice by value.
ghost use Rattle.std.specs.Prelude.{◌≡◌};
ghost use Rattle.octets.specs.Lists.{array_of};

use crate::store::store_bytes;

// The first 32 bytes of a slice, and zeros where it has fewer.
#[tactic(auto, unfolding(crate::specs::Lists::array_of))]
pub fn array_32(s: &[u8]) -> [u8; 32]
    ensures { result ≡ array_of 32 s.now }
{
    let mut array = [0u8; 32];
    store_bytes(&mut array, 0, s);
    array
}
