// What the exported functions do with slices of 32 bytes that they are lent, and with their answers.
#![tactic(auto)]

mod lent; // lent.rt
mod stored; // stored.rt
mod words; // words.rt
mod numbers; // numbers.rt

pub use self::lent::check_sizes;
pub use self::numbers::written;
pub use self::stored::{store_hash, store_part};
pub use self::words::store_words;
