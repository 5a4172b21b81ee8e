// The total capacity of a transaction's inputs, and that of its outputs.
ghost use Rattle.std.specs.Prelude.{◌≡◌};
ghost use Rattle.scene_table.specs.Slices.{scene_of};
ghost use Rattle.capacity.specs.Capacity.{total_capacity};
ghost use Rattle.capacity.specs.Totals.{total_of, side_count, side_capacity};

use scene_table::{LentSlices, input_capacity, input_count, output_capacity, output_count};

// Which list of the transaction.
#[derive(Clone, Copy, Debug, PartialEq, Eq)]
pub(crate) enum Side {
    Inputs,
    Outputs,
}

// How many lines a list has.
fn side_count(scene: &LentSlices, side: Side) -> u32
    ensures { result ≡ side_count side scene.now.table }
{
    match side {
        Side::Inputs => input_count(scene.table),
        Side::Outputs => output_count(scene.table),
    }
}

// The capacity of the line at an index.
fn side_capacity(scene: &LentSlices, side: Side, i: u32) -> u64
    ensures { result ≡ side_capacity side scene.now.table i }
{
    match side {
        Side::Inputs => input_capacity(scene.table, i),
        Side::Outputs => output_capacity(scene.table, i),
    }
}

// The total of a list, where a u64 holds it.
#[tactic(auto, using(crate::proofs::TotalLaws::totals), unfolding(crate::specs::Totals::total_of, crate::specs::Capacity::total_capacity))]
pub(crate) fn total_of(scene: &LentSlices, side: Side) -> Option<u64>
    ensures { result ≡ total_of (total_capacity side (scene_of scene.now)) }
{
    let mut total: u64 = 0;
    for i in 0..side_count(scene, side) {
        total = total.checked_add(side_capacity(scene, side, i))?;
    }
    Some(total)
}
