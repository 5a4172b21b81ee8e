// The witness of the group's first input, and the checks of the hashed witnesses.
ghost use Rattle.std.specs.Prelude.{◌≡◌, Ok};
ghost use Rattle.protocol.specs.Rows.{decide};
ghost use Rattle.scene_table.specs.Slices.{scene_of};
ghost use Rattle.group_sighash.specs.Witnesses.{first_witness, first_witness_rows, other_rows};
ghost use Rattle.group_sighash.specs.GroupSighash.{sighash_rows};

use crate::hashed::{first_other, group_begin, is_hashed, witness_at};
use account_witness::{check_witness_header, proof_count_of};
use molecule::{check_table, check_witness_lock, lock_of};
use protocol::{AUTHENTICATOR_MAX_COUNT, ProtocolError, require};
use scene_table::{LentSlices, witness_count};

const MAX_WITNESS: usize = 132096;

// The witness of the group's first input, nothing where it is missing.
pub fn first_witness<'s>(scene: &LentSlices<'_, 's>) -> &'s [u8]
    ensures { result.now ≡ first_witness (scene_of scene.now) }
{
    match group_begin(scene) {
        Some(first) => witness_at(scene, first),
        None => &[],
    }
}

// The rows of the group's first witness. A missing one is read as empty, and the table's first row refuses it with the same
// number as the row for a missing one.
#[tactic(auto, using(protocol::proofs::AllPass::deciding, crate::proofs::FirstRows::lock_found), unfolding(protocol::specs::Rows::decide, crate::specs::Witnesses::first_witness_rows, crate::specs::Witnesses::count_rows))]
pub fn check_first_witness(witness: &[u8]) -> Result<(), ProtocolError>
    ensures { result ≡ decide (Ok tt) (first_witness_rows witness.now) }
{
    let invalid = ProtocolError::InvalidWitness;
    require(witness.len() <= MAX_WITNESS, invalid)?;
    check_witness_lock(witness)?;
    let lock = lock_of(witness);
    check_witness_header(lock)?;
    require(
        proof_count_of(lock) as usize <= AUTHENTICATOR_MAX_COUNT,
        invalid,
    )
}

// The other hashed witnesses, each of at most 132,096 bytes.
#[tactic(auto, using(crate::proofs::HashedLaws::others_fit), unfolding(protocol::specs::Rows::decide, crate::specs::Witnesses::other_rows))]
pub fn check_others(scene: &LentSlices) -> Result<(), ProtocolError>
    ensures { result ≡ decide (Ok tt) (other_rows (scene_of scene.now)) }
{
    for i in first_other(scene)..witness_count(scene.table) {
        if is_hashed(scene, i) {
            require(
                witness_at(scene, i).len() <= MAX_WITNESS,
                ProtocolError::InvalidWitness,
            )?;
        }
    }
    Ok(())
}

// The witnesses that are hashed, as the sighash needs them; the first is tested as above.
#[tactic(auto, using(protocol::proofs::AllPass::deciding, crate::proofs::FirstRows::sighash_first), unfolding(protocol::specs::Rows::decide, crate::specs::Witnesses::witness_fits))]
pub(crate) fn check_hashed(scene: &LentSlices, first: &[u8]) -> Result<(), ProtocolError>
    requires { first.now ≡ first_witness (scene_of scene.now) }
    ensures { result ≡ decide (Ok tt) (sighash_rows (scene_of scene.now)) }
{
    let invalid = ProtocolError::InvalidWitness;
    require(first.len() <= MAX_WITNESS, invalid)?;
    check_table(first, invalid)?;
    check_others(scene)
}
