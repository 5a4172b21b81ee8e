// Witnesses fed to the sighash, each as its length and then its bytes.
ghost use Rattle.std.specs.Prelude.{◌≡◌};
ghost use Rattle.blake2b.specs.State.{fed_all};
ghost use Rattle.molecule.specs.Canonical.{canonical_of};
ghost use Rattle.authorization.specs.Hashed.{hashed_witness};

use blake2b::Blake2b;
use molecule::{canonical_head, second_field, third_field};

// A witness is fed.
#[tactic(auto, using(crate::proofs::Feeding::witness_fed))]
pub fn feed_witness(hash: Blake2b, witness: &[u8]) -> Blake2b
    ensures { result ≡ fed_all hash (hashed_witness witness.now) }
{
    let length = witness.len() as u64;
    hash.update(&length.to_le_bytes()).update(witness)
}

// The canonical witness of a witness is fed, without a copy of it.
#[tactic(auto, using(crate::proofs::Feeding::canonical_fed, molecule::proofs::CanonicalForm::fields_within))]
pub fn feed_canonical_witness(hash: Blake2b, witness: &[u8]) -> Blake2b
    ensures { result ≡ fed_all hash (hashed_witness (canonical_of witness.now)) }
{
    let second = second_field(witness);
    let third = third_field(witness);
    let length = 20 + second.len() as u64 + third.len() as u64;
    hash.update(&length.to_le_bytes())
        .update(&canonical_head(witness))
        .update(second)
        .update(third)
}
