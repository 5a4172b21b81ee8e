// What the test programs share: their input, the fields of a line, their numbers, and the line that counts the cases.
#![tactic(auto)]

mod fields; // fields.rt
mod counts; // counts.rt
mod input; // input.rt

pub use self::counts::{COUNT_LINE_MAX_LEN, Counts, count_line, counted};
pub use self::fields::{NO_NUMBER, field, fields_after, value, wide};
pub use self::input::read_full;
