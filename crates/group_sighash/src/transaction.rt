// The hash over the transaction and its witnesses.
ghost use Rattle.std.specs.Prelude.{◌≡◌};
ghost use Rattle.blake2b.specs.State.{fed_all};
ghost use Rattle.authorization.specs.Sighash.{hashed_witnesses};
ghost use Rattle.scene_table.specs.Slices.{scene_of};
ghost use Rattle.group_sighash.specs.Witnesses.{other_witnesses};
ghost use Rattle.group_sighash.specs.GroupSighash.{sighash_with, group_answer};

use crate::hashed::{first_other, is_hashed, witness_at};
use crate::witnesses::{check_hashed, first_witness};
use authorization::{feed_canonical_witness, feed_witness};
use blake2b::Blake2b;
use octets::part_at;
use protocol::ProtocolError;
use scene_table::{LentSlices, transaction_hash, witness_count};

// The hashed witnesses behind the first of the group are fed.
#[tactic(auto, using(crate::proofs::HashedLaws::fed_others))]
fn feed_others(hash: Blake2b, scene: &LentSlices) -> Blake2b
    ensures { result ≡ fed_all hash (hashed_witnesses (other_witnesses (scene_of scene.now))) }
{
    let mut fed = hash;
    for i in first_other(scene)..witness_count(scene.table) {
        if is_hashed(scene, i) {
            fed = feed_witness(fed, witness_at(scene, i));
        }
    }
    fed
}

// The sighash over a first witness that is handed in: that of the transaction, where it is the group's.
#[tactic(auto, using(crate::proofs::HashedLaws::sighash_parts))]
pub fn sighash_with(scene: &LentSlices, first: &[u8]) -> [u8; 32]
    ensures { result ≡ sighash_with first.now (scene_of scene.now) }
{
    let transaction = part_at(scene.store, transaction_hash(scene.table));
    let begun = Blake2b::new().update(transaction);
    let fed = feed_canonical_witness(begun, first);
    feed_others(fed, scene).finish().digest()
}

// The sighash of the transaction, or 22: the first witness of the group is missing or no table, or a hashed witness is too
// long.
#[tactic(auto, unfolding(crate::specs::GroupSighash::group_answer, crate::specs::GroupSighash::group_sighash))]
pub fn canonical_group_sighash(scene: &LentSlices) -> Result<[u8; 32], ProtocolError>
    ensures { result ≡ group_answer (scene_of scene.now) }
{
    let first = first_witness(scene);
    check_hashed(scene, first)?;
    Ok(sighash_with(scene, first))
}
