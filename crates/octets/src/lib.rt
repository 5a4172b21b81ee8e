// Bytes in slices: little-endian numbers, runs of stores, parts and places, arrays, equal slices, zeros; and numbers that rise. Every
// function is total: past the end of a slice a read finds nothing and a store stores nothing.
#![tactic(auto)]

mod read; // read.rt
mod store; // store.rt
mod place; // place.rt
mod array; // array.rt
mod compare; // compare.rt
mod zero; // zero.rt
mod rising; // rising.rt

pub use self::array::array_32;
pub use self::compare::same_bytes;
pub use self::place::{Place, part_at};
pub use self::read::{fits, part, rest, u8_at, u16_at, u32_at, u64_at};
pub use self::rising::is_rising;
pub use self::store::{store_bytes, store_number};
pub use self::zero::{zero_bytes, zero_words};
