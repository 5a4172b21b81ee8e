// Which witnesses are hashed: those of the group's inputs, and those behind the inputs.
ghost use Rattle.std.specs.Prelude.{◌≡◌, ◌-◌, ◌<◌, ◌^◌, IfSome};
ghost use Rattle.group_sighash.specs.Hashed.{witness_at, is_hashed, GroupBegins, FirstOther};

use octets::part_at;
use scene_table::{LentSlices, input_count, input_group, witness, witness_count};

// Whether the witness is hashed, if there is one.
#[tactic(auto, unfolding(crate::specs::Hashed::is_hashed))]
pub(crate) fn is_hashed(scene: &LentSlices, i: u32) -> bool
    ensures { result ≡ is_hashed scene.now.table i }
{
    input_count(scene.table) <= i || input_group(scene.table, i)
}

// The index of the group's first witness.
#[tactic(auto, using(crate::proofs::HashedLaws::group_begins))]
pub(crate) fn group_begin(scene: &LentSlices) -> Option<u32>
    ensures begins { GroupBegins scene.now.table result }
    ensures upper_bound { IfSome result (λ i. i < 2 ^ 32 - 1) }
{
    for i in 0..input_count(scene.table).min(witness_count(scene.table)) {
        if input_group(scene.table, i) {
            return Some(i);
        }
    }
    None
}

// Where the hashed witnesses behind the first of the group begin.
pub(crate) fn first_other(scene: &LentSlices) -> u32
    ensures { FirstOther scene.now.table result }
{
    match group_begin(scene) {
        Some(first) => first + 1,
        None => 0,
    }
}

// The bytes of the witness whose record is there.
#[tactic(auto, unfolding(crate::specs::Hashed::witness_at))]
pub(crate) fn witness_at<'s>(scene: &LentSlices<'_, 's>, i: u32) -> &'s [u8]
    ensures { result.now ≡ witness_at scene.now.table scene.now.store i }
{
    part_at(scene.store, witness(scene.table, i))
}
