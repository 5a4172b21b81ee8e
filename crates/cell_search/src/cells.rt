// The cells of a transaction, list by list.
ghost use Rattle.std.specs.Prelude.{◌≡◌};
ghost use Rattle.scene_table.specs.Slices.{scene_of};
ghost use Rattle.scene_table.specs.Places as places;
ghost use Rattle.cell_search.specs.Search.{cells_of, cell_at, cell_hash};
ghost use Rattle.cell_search.specs.Cells.{cell_count, source_places, places_within};

use octets::{Place, part_at};
use scene_table::{
    CellPlaces, LentSlices, dep_cell, dep_count, input_cell, input_count, output_cell, output_count,
};

// Which list of the transaction.
#[derive(Clone, Copy, Debug, PartialEq, Eq)]
pub enum Source {
    Input,
    Output,
    CellDep,
}

// Which hash of a cell.
#[derive(Clone, Copy, Debug, PartialEq, Eq)]
pub enum CellField {
    TypeHash,
    DataHash,
}

// How many cells a list has.
#[tactic(auto, unfolding(crate::specs::Cells::cell_count))]
pub fn cell_count(table: &[u32], source: Source) -> u32
    ensures { result ≡ cell_count source table.now }
{
    match source {
        Source::Input => input_count(table),
        Source::Output => output_count(table),
        Source::CellDep => dep_count(table),
    }
}

// The places of a cell's fields, by its record.
#[tactic(auto, unfolding(crate::specs::Cells::source_places))]
pub fn cell_places(table: &[u32], source: Source, i: u32) -> CellPlaces
    ensures { result ≡ source_places source table.now i }
{
    match source {
        Source::Input => input_cell(table, i),
        Source::Output => output_cell(table, i),
        Source::CellDep => dep_cell(table, i),
    }
}

// A hash of the cell whose record is there.
#[tactic(auto, unfolding(crate::specs::Search::cell_hash, scene_table::specs::Lent::cell_from))]
pub(crate) fn cell_hash<'s>(
    scene: &LentSlices<'_, 's>,
    source: Source,
    field: CellField,
    i: u32,
) -> &'s [u8]
    ensures { result.now ≡ cell_hash field (places.cell_in scene.now.store (source_places source scene.now.table i)) }
{
    let places = cell_places(scene.table, source, i);
    match field {
        CellField::TypeHash => part_at(scene.store, places.type_hash),
        CellField::DataHash => part_at(scene.store, places.data_hash),
    }
}

// The places of a cell's fields, empty ones where the list has no such cell.
#[tactic(auto, unfolding(crate::specs::Cells::places_within, crate::specs::Cells::no_places))]
fn places_within(table: &[u32], source: Source, i: u32) -> CellPlaces
    ensures { result ≡ places_within source table.now i }
{
    if i < cell_count(table, source) {
        return cell_places(table, source, i);
    }
    let none = Place { start: 0, len: 0 };
    CellPlaces {
        type_hash: none,
        data_hash: none,
        type_script: none,
        content: none,
    }
}

// The data of a cell, nothing where the list has no such cell.
#[tactic(auto, using(crate::proofs::CellLaws::content_within))]
pub fn cell_content<'s>(scene: &LentSlices<'_, 's>, source: Source, i: u32) -> &'s [u8]
    ensures { result.now ≡ (cell_at (cells_of source (scene_of scene.now)) i).content }
{
    let places = places_within(scene.table, source, i);
    part_at(scene.store, places.content)
}

// The type script of a cell, nothing where it has none or the list has no such cell.
#[tactic(auto, using(crate::proofs::CellLaws::type_script_within))]
pub fn cell_type_script<'s>(scene: &LentSlices<'_, 's>, source: Source, i: u32) -> &'s [u8]
    ensures { result.now ≡ (cell_at (cells_of source (scene_of scene.now)) i).type_script }
{
    let places = places_within(scene.table, source, i);
    part_at(scene.store, places.type_script)
}
