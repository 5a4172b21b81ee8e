// The numbers and the fields of a table by their names; zero, and as far as they are there, where the bytes end before them.
// A function for each, over `u8_at` and its like, so that each field has the name that its definition has.
ghost use Rattle.std.specs.Prelude.{◌≡◌};
ghost use Rattle.molecule.specs.Table3.{table_total_of, first_offset_of, second_offset_of, third_offset_of, between, field1, field2, field3};
ghost use Rattle.molecule.specs.Bytes.{bytes_length_of};

use octets::{part, rest, u32_at};

pub(crate) fn table_total_of(table: &[u8]) -> u32
    ensures { result ≡ table_total_of table.now }
{
    u32_at(table, 0)
}

pub(crate) fn first_offset_of(table: &[u8]) -> u32
    ensures { result ≡ first_offset_of table.now }
{
    u32_at(table, 4)
}

pub(crate) fn second_offset_of(table: &[u8]) -> u32
    ensures { result ≡ second_offset_of table.now }
{
    u32_at(table, 8)
}

pub(crate) fn third_offset_of(table: &[u8]) -> u32
    ensures { result ≡ third_offset_of table.now }
{
    u32_at(table, 12)
}

pub(crate) fn bytes_length_of(field: &[u8]) -> u32
    ensures { result ≡ bytes_length_of field.now }
{
    u32_at(field, 0)
}

// The bytes from `start` up to `end`.
#[tactic(auto, unfolding(crate::specs::Table3::between))]
fn bytes_between(s: &[u8], start: usize, end: usize) -> &[u8]
    ensures { result.now ≡ between s.now start end }
{
    part(s, start, end.saturating_sub(start))
}

#[tactic(auto, unfolding(crate::specs::Table3::field1))]
pub(crate) fn first_field(table: &[u8]) -> &[u8]
    ensures { result.now ≡ field1 table.now }
{
    bytes_between(table, 16, second_offset_of(table) as usize)
}

#[tactic(auto, unfolding(crate::specs::Table3::field2))]
pub fn second_field(table: &[u8]) -> &[u8]
    ensures { result.now ≡ field2 table.now }
{
    bytes_between(
        table,
        second_offset_of(table) as usize,
        third_offset_of(table) as usize,
    )
}

#[tactic(auto, unfolding(crate::specs::Table3::field3))]
pub fn third_field(table: &[u8]) -> &[u8]
    ensures { result.now ≡ field3 table.now }
{
    rest(table, third_offset_of(table) as usize)
}
