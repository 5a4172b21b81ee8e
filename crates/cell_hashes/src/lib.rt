// Whether the hashes of a transaction's cells are those of what the cells hold.
#![tactic(auto)]

ghost use Rattle.std.specs.Prelude.{◌≡◌, Ok};
ghost use Rattle.protocol.specs.Rows.{decide};
ghost use Rattle.scene_table.specs.Slices.{scene_of};
ghost use Rattle.scene_table.specs.Places.{cell_in};
ghost use Rattle.cell_search.specs.Search.{cells_of};
ghost use Rattle.cell_hashes.specs.Hashes.{hash_agrees, cell_hash_rows, cells_hash_rows, hash_rows};

use blake2b::ckb_hash;
use cell_search::{Source, cell_count, cell_places};
use octets::{part_at, same_bytes};
use protocol::{ProtocolError, require};
use scene_table::{CellPlaces, LentSlices};

// Whether there are no bytes, or the hash is CKB's hash of them.
#[tactic(auto, unfolding(crate::specs::Hashes::hash_agrees))]
fn hash_agrees(hash: &[u8], bytes: &[u8]) -> bool
    ensures { result ≡ hash_agrees hash.now bytes.now }
{
    bytes.is_empty() || same_bytes(hash, &ckb_hash(bytes))
}

// The hashes of the cell at its places: type before data.
#[tactic(auto, unfolding(protocol::specs::Rows::decide, scene_table::specs::Lent::cell_from, crate::specs::Hashes::cell_hash_rows))]
fn check_cell(store: &[u8], cell: CellPlaces) -> Result<(), ProtocolError>
    ensures { result ≡ decide (Ok tt) (cell_hash_rows (cell_in store.now cell)) }
{
    let type_agrees = hash_agrees(
        part_at(store, cell.type_hash),
        part_at(store, cell.type_script),
    );
    require(type_agrees, ProtocolError::HashMismatch)?;
    let data_agrees = hash_agrees(part_at(store, cell.data_hash), part_at(store, cell.content));
    require(data_agrees, ProtocolError::HashMismatch)
}

// The hashes of the cells of a list, up to the first that differs.
#[tactic(auto, using(crate::proofs::HashLaws::cells_found), unfolding(protocol::specs::Rows::decide))]
fn check_cells(scene: &LentSlices, source: Source) -> Result<(), ProtocolError>
    ensures { result ≡ decide (Ok tt) (cells_hash_rows (cells_of source (scene_of scene.now))) }
{
    for i in 0..cell_count(scene.table, source) {
        check_cell(scene.store, cell_places(scene.table, source, i))?;
    }
    Ok(())
}

// The hashes of all cells: 40 where one differs from what the cell holds.
#[tactic(auto, using(protocol::proofs::AllPass::deciding), unfolding(crate::specs::Hashes::hash_rows))]
pub fn check_hashes(scene: &LentSlices) -> Result<(), ProtocolError>
    ensures { result ≡ decide (Ok tt) (hash_rows (scene_of scene.now)) }
{
    check_cells(scene, Source::Input)?;
    check_cells(scene, Source::Output)?;
    check_cells(scene, Source::CellDep)
}
