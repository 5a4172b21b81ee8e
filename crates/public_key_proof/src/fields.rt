// The fields of a public-key proof by their names; zero where the bytes end before them.
// A function for each, over `u8_at` and its like, so that each field has the name that its definition has.
ghost use Rattle.std.specs.Prelude.{◌≡◌};
ghost use Rattle.public_key_proof.specs.Reader.{public_key_proof_version_of, public_key_length_of, signature_length_of};

use crate::offsets::{PUBLIC_KEY_LENGTH_OFFSET, SIGNATURE_LENGTH_OFFSET, VERSION_OFFSET};
use octets::{u8_at, u16_at};

pub(crate) fn public_key_proof_version_of(proof: &[u8]) -> u8
    ensures { result ≡ public_key_proof_version_of proof.now }
{
    u8_at(proof, VERSION_OFFSET)
}

pub(crate) fn public_key_length_of(proof: &[u8]) -> u16
    ensures { result ≡ public_key_length_of proof.now }
{
    u16_at(proof, PUBLIC_KEY_LENGTH_OFFSET)
}

pub(crate) fn signature_length_of(proof: &[u8]) -> u16
    ensures { result ≡ signature_length_of proof.now }
{
    u16_at(proof, SIGNATURE_LENGTH_OFFSET)
}
