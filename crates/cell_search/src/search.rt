// The search for the cells of a list that have a hash.
ghost use Rattle.std.specs.Prelude.{◌≡◌};
ghost use Rattle.scene_table.specs.Slices.{scene_of};
ghost use Rattle.cell_search.specs.Search.{cells_of, cell_search, is_missing, is_one};

use crate::cells::{CellField, Source, cell_count, cell_hash};
use octets::same_bytes;
use scene_table::LentSlices;

// None, the index of the one, or several.
#[derive(Clone, Copy, Debug, PartialEq, Eq)]
pub enum Search {
    Missing,
    One(u32),
    Several,
}

// The search leaves its loop at the second match.
#[tactic(auto, using(crate::proofs::CellLaws::searching), unfolding(crate::specs::Search::cell_search, crate::proofs::CellLaws::places_of))]
pub fn search_cells(scene: &LentSlices, source: Source, field: CellField, hash: &[u8]) -> Search
    ensures { result ≡ cell_search field hash.now (cells_of source (scene_of scene.now)) }
{
    let mut found = Search::Missing;
    for i in 0..cell_count(scene.table, source) {
        if same_bytes(cell_hash(scene, source, field, i), hash) {
            found = match found {
                Search::Missing => Search::One(i),
                _ => return Search::Several,
            };
        }
    }
    found
}

impl Search {
    pub fn is_missing(self) -> bool
        ensures { result ≡ is_missing self }
    {
        matches!(self, Search::Missing)
    }

    pub fn is_one(self) -> bool
        ensures { result ≡ is_one self }
    {
        matches!(self, Search::One(_))
    }
}
