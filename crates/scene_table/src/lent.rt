// A scene as it is lent.
ghost use Rattle.scene_table.specs.Slices.{Slices};

use std::marker::Model;

// The table of a scene's numbers, and the store of its bytes, which may outlive the table. A contract sees the two lists.
#[derive(Drop)]
pub struct LentSlices<'t, 's> {
    pub table: &'t [u32],
    pub store: &'s [u8],
}

impl<'t, 's> Model for LentSlices<'t, 's> {
    ghost Value = { Slices };

    ghost view = { λ s. record { table = s.table.now; store = s.store.now } };
}
