// The numbers of fields, put into the table.
ghost use Rattle.std.specs.Prelude.{◌≡◌, ◌+◌, ◌≤◌, ◌∷◌, map, length, get_or};
ghost use Rattle.std.proofs.lemmas.List.Edits.{sets};
ghost use Rattle.text.specs.Text.{hex_val, decimal_of, number_in};
ghost use Rattle.octets.specs.Le.{u64_halves};
ghost use Rattle.scene_line.specs.Line.{field_entries};
ghost use Rattle.protocol.specs.Limits.{scene_max_length};

use scene_line::Form;
use text::{hex_value, read_decimal};

// The value of the first digit of f.
fn digit(f: &[u8]) -> u8
    ensures { result ≡ hex_val (get_or f.now 0 0) }
{
    match f {
        [first, ..] => hex_value(*first),
        [] => hex_value(0),
    }
}

// Puts the halves of the number that f is into the table at `at`.
#[tactic(auto, unfolding(text::specs::Text::number_in))]
fn put_halves(f: &[u8], table: &mut [u32], at: usize)
    requires { at + 2 ≤ length table.old }
    ensures { table.new ≡ sets table.old at (u64_halves (number_in (decimal_of f.now))) }
{
    let number = read_decimal(f).unwrap_or(0);
    table[at] = (number % 4294967296) as u32;
    table[at + 1] = (number / 4294967296) as u32;
}

// Puts the count of the digits f and each of them into the table from at on.
fn put_digits(f: &[u8], table: &mut [u32], at: usize)
    requires f_in_bounds { at + 1 + length f.now ≤ length table.old }
    requires f_len_bound { length f.now ≤ scene_max_length }
    ensures { table.new ≡ sets table.old at (length f.now ∷ map hex_val f.now) }
{
    table[at] = f.len() as u32;
    for (i, &byte) in f.iter().enumerate() {
        table[at + 1 + i] = u32::from(hex_value(byte));
    }
}

// Puts the numbers of a field into the table from at on, and says how many they are.
pub(crate) fn put_number(t: Form, f: &[u8], table: &mut [u32], at: usize) -> usize
    requires f_in_bounds { at + length (field_entries t f.now) ≤ length table.old }
    requires f_len_bound { length f.now ≤ scene_max_length }
    ensures value { result ≡ length (field_entries t f.now) }
    ensures table_after { table.new ≡ sets table.old at (field_entries t f.now) }
{
    match t {
        Form::Group => {
            table[at] = digit(f) as u32;
            1
        }
        Form::Since | Form::Capacity => {
            put_halves(f, table, at);
            2
        }
        Form::TypeHash | Form::Hash => 0,
        Form::TypeScript | Form::Hex => {
            table[at] = (f.len() / 2) as u32;
            1
        }
        Form::Digits => {
            put_digits(f, table, at);
            1 + f.len()
        }
    }
}
