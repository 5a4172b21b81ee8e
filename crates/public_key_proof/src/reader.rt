// The reader of a public-key proof.
ghost use Rattle.std.specs.Prelude.{◌≡◌};
ghost use Rattle.public_key_proof.specs.Reader.{public_key_proof_fault, read_public_key_proof};

use crate::fields::{public_key_length_of, public_key_proof_version_of, signature_length_of};
use crate::offsets::PUBLIC_KEY_OFFSET;
use protocol::{ProtocolError, require};

// Where the key and the signature begin, and how long they are.
#[derive(Drop)]
pub struct PublicKeyProof {
    pub public_key: usize,
    pub public_key_len: usize,
    pub signature: usize,
    pub signature_len: usize,
}

#[tactic(auto, unfolding(protocol::specs::Rows::decide, crate::specs::Reader::public_key_proof_fault, crate::specs::Reader::public_key_proof_rows))]
fn check_proof(proof: &[u8]) -> Result<(), ProtocolError>
    ensures { result ≡ public_key_proof_fault proof.now }
{
    let invalid = ProtocolError::InvalidProof;
    let public_key_len = public_key_length_of(proof) as usize;
    let signature_len = signature_length_of(proof) as usize;
    require(PUBLIC_KEY_OFFSET <= proof.len(), invalid)?;
    require(public_key_proof_version_of(proof) == 1, invalid)?;
    require(0 < public_key_len, invalid)?;
    require(0 < signature_len, invalid)?;
    require(
        PUBLIC_KEY_OFFSET + public_key_len + signature_len == proof.len(),
        invalid,
    )
}

// The places of the key and the signature, or the refusal.
#[tactic(auto, unfolding(crate::specs::Reader::read_public_key_proof, crate::specs::Reader::public_key_proof_places))]
pub fn parse_public_key_proof(proof: &[u8]) -> Result<PublicKeyProof, ProtocolError>
    ensures { result ≡ read_public_key_proof proof.now }
{
    check_proof(proof)?;
    let public_key_len = public_key_length_of(proof) as usize;
    Ok(PublicKeyProof {
        public_key: PUBLIC_KEY_OFFSET,
        public_key_len,
        signature: PUBLIC_KEY_OFFSET + public_key_len,
        signature_len: signature_length_of(proof) as usize,
    })
}
