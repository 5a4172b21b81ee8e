// The scene reader: lines of text into a lent store of bytes and a lent table of numbers.
#![tactic(auto)]

mod state; // state.rt
mod numbers; // numbers.rt
mod put; // put.rt
mod lines; // lines.rt

ghost use Rattle.std.specs.Prelude.{◌≡◌, length};
ghost use Rattle.octets.specs.Zeroed.{zeroed};
ghost use Rattle.scene_reader.specs.Reader.{reader_check, reader_store, reader_table, read_into};
ghost use Rattle.scene_reader.specs.Room.{step_outcome};

use crate::lines::read_lines;
use crate::state::State;
use octets::{zero_bytes, zero_words};
use protocol::{ProtocolError, SCENE_MAX_LEN, TABLE_MIN_ENTRIES, require};

// The limits, then the lines, into a store and a table that are all zero.
#[tactic(auto, unfolding(protocol::specs::Rows::decide, crate::specs::Reader::scene_limit_rows))]
fn read_checked(scene: &[u8], store: &mut [u8], table: &mut [u32]) -> Result<State, ProtocolError>
    requires { (store.old ≡ zeroed store.old) × (table.old ≡ zeroed table.old) }
    ensures { step_outcome result store.new table.new ≡ read_into scene.now store.old table.old }
{
    require(scene.len() <= SCENE_MAX_LEN, ProtocolError::SceneTooLong)?;
    require(
        TABLE_MIN_ENTRIES <= table.len(),
        ProtocolError::StoreTooShort,
    )?;
    read_lines(scene, store, table)
}

// Reads a scene into the store and the table. Both are all zero after a refusal.
pub fn read_scene(scene: &[u8], store: &mut [u8], table: &mut [u32]) -> Result<(), ProtocolError>
    ensures value { result ≡ reader_check (read_into scene.now store.old table.old) }
    ensures store_after { store.new ≡ reader_store (length store.old) (read_into scene.now store.old table.old) }
    ensures table_after { table.new ≡ reader_table (length table.old) (read_into scene.now store.old table.old) }
{
    zero_bytes(store);
    zero_words(table);
    if let Err(error) = read_checked(scene, store, table) {
        zero_bytes(store);
        zero_words(table);
        return Err(error);
    }
    Ok(())
}
