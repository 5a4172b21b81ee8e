// Text: pieces between separators, and hexadecimal and decimal digits, read and put. Every function is total, for any length.
#![tactic(auto)]

mod cut; // cut.rt
mod hex; // hex.rt
mod decimal; // decimal.rt
mod print; // print.rt

pub use self::cut::{COMMA, LINE_END, count, find, head, split_once, tail};
pub use self::decimal::{all_between, read_decimal};
pub use self::hex::{decode, hex_ok, hex_value};
pub use self::print::{put_byte, put_decimal, put_hex};
