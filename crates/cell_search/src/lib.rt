// The search for a cell by one of its hashes, and what a cell holds.
#![tactic(auto)]

mod cells; // cells.rt
mod search; // search.rt

pub use self::cells::{CellField, Source, cell_content, cell_count, cell_places, cell_type_script};
pub use self::search::{Search, search_cells};
