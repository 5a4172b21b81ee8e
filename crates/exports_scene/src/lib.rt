// The scene reader and the table's test for programs in other languages.
#![tactic(auto)]

ghost use Rattle.std.specs.Prelude.{◌≡◌, cond, length};
ghost use Rattle.protocol.specs.Rows.{check_number};
ghost use Rattle.scene_reader.specs.Reader.{read_of, reader_check, reader_store, reader_table};
ghost use Rattle.scene_table.specs.Valid.{valid_table};

use protocol::check_number;

// Reads a scene into the store and the table, and returns document 01's number, 0 where it is accepted.
#[unsafe(no_mangle)]
pub extern "C" fn fowlcredenza_read_scene(scene: &[u8], store: &mut [u8], table: &mut [u32]) -> u32
    ensures value { result ≡ check_number (reader_check (read_of scene.now (length store.old) (length table.old))) }
    ensures store_after { store.new ≡ reader_store (length store.old)
        (read_of scene.now (length store.old) (length table.old)) }
    ensures table_after { table.new ≡ reader_table (length table.old)
        (read_of scene.now (length store.old) (length table.old)) }
{
    check_number(scene_reader::read_scene(scene, store, table)) as u32
}

// 1 where a scene, its length aside, leaves this table with a store of that many bytes, else 0.
#[unsafe(no_mangle)]
pub extern "C" fn fowlcredenza_table_valid(table: &[u32], store_len: usize) -> u32
    ensures { result ≡ cond (valid_table table.now store_len) 1 0 }
{
    u32::from(scene_table::table_valid(table, store_len))
}
