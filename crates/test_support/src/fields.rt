// The fields of a line, and their numbers.
ghost use Rattle.std.specs.Prelude.{◌≡◌};
ghost use Rattle.text.specs.Text.{decimal_of};
ghost use Rattle.test_support.specs.Fields.{first_field, fields_after, field_number};

use text::{COMMA, find, head, read_decimal, tail};

// The number of a bad field, which no answer has.
pub const NO_NUMBER: u64 = 18446744073709551615;

// The first field.
#[tactic(auto, unfolding(crate::specs::Fields::first_field), using(text::proofs::Pieces::first_piece))]
pub fn field(fields: &[u8]) -> &[u8]
    ensures { result.now ≡ first_field fields.now }
{
    head(fields, find(fields, COMMA))
}

// The fields after the first.
#[tactic(auto, unfolding(crate::specs::Fields::fields_after, crate::specs::Fields::first_field), using(text::proofs::Pieces::first_piece))]
pub fn fields_after(fields: &[u8]) -> &[u8]
    ensures { result.now ≡ fields_after fields.now }
{
    tail(fields, find(fields, COMMA))
}

// The number that a field is the decimal form of, or NO_NUMBER where it is bad.
pub fn value(f: &[u8]) -> u64
    ensures { result ≡ field_number (decimal_of f.now) }
{
    read_decimal(f).unwrap_or(NO_NUMBER)
}

// A byte as a number that can be printed.
pub fn wide(x: u8) -> u64
    ensures { result ≡ x }
{
    u64::from(x)
}
