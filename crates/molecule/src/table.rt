// The loose reader of a table of three fields.
ghost use Rattle.std.specs.Prelude.{◌≡◌, Ok};
ghost use Rattle.protocol.specs.Rows.{decide};
ghost use Rattle.molecule.specs.Table3.{table_rows, read_table};

use crate::fields::{first_offset_of, second_offset_of, table_total_of, third_offset_of};
use protocol::{ProtocolError, require};

// Where each field begins. It ends where the next one begins, the last with the table.
#[derive(Drop)]
pub struct TableFields {
    pub first: usize,
    pub second: usize,
    pub third: usize,
}

#[tactic(auto, unfolding(protocol::specs::Rows::decide, crate::specs::Table3::table_rows))]
pub fn check_table(table: &[u8], error: ProtocolError) -> Result<(), ProtocolError>
    ensures { result ≡ decide (Ok tt) (table_rows error table.now) }
{
    let second = second_offset_of(table);
    let third = third_offset_of(table);
    require(16 <= table.len(), error)?;
    require(table_total_of(table) as usize == table.len(), error)?;
    require(first_offset_of(table) == 16, error)?;
    require(16 <= second, error)?;
    require(second <= third, error)?;
    require(third as usize <= table.len(), error)
}

// Where the fields of a table begin, or the refusal.
#[tactic(auto, unfolding(crate::specs::Table3::read_table, crate::specs::Table3::table_fields_of))]
pub fn table3_fields(table: &[u8]) -> Result<TableFields, ProtocolError>
    ensures { result ≡ read_table table.now }
{
    check_table(table, ProtocolError::InvalidWitness)?;
    Ok(TableFields {
        first: 16,
        second: second_offset_of(table) as usize,
        third: third_offset_of(table) as usize,
    })
}
