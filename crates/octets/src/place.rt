// Places of bytes in a slice.
ghost use Rattle.std.specs.Prelude.{◌≡◌};
ghost use Rattle.octets.specs.Places.{bytes_at};

use crate::read::part;

// Where bytes begin, and how many they are.
#[derive(Clone, Copy)]
pub struct Place {
    pub start: usize,
    pub len: usize,
}

// The bytes at a place, as far as they are there.
#[tactic(auto, unfolding(crate::specs::Places::bytes_at))]
pub fn part_at(s: &[u8], place: Place) -> &[u8]
    ensures { result.now ≡ bytes_at s.now place }
{
    part(s, place.start, place.len)
}
