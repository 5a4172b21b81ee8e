// The public-key proof.
ghost use Rattle.public_key_proof.specs.Reader.{read_public_key_proof};
ghost use Rattle.public_key_proof.specs.Reading.{public_key_proof_with};
ghost use Rattle.exports.specs.Readers.{StoresWords, proof_words};
ghost use Rattle.exports.specs.Writers.{WritesPublicKeyProof};

use export_answers::{store_words, written};
use protocol::error_number;
use public_key_proof::{encode_public_key_proof, parse_public_key_proof};

// Stores place and length of the key and of the signature.
#[tactic(auto, unfolding(export_answers::specs::Stored::answer_bytes, crate::specs::Readers::proof_words))]
#[unsafe(no_mangle)]
pub extern "C" fn fowlcredenza_parse_public_key_proof(proof: &[u8], out: &mut [u8]) -> u32
    ensures { StoresWords proof_words (read_public_key_proof proof.now) out.old result out.new }
{
    match parse_public_key_proof(proof) {
        Err(error) => error_number(error) as u32,
        Ok(places) => {
            let words = [
                places.public_key as u64,
                places.public_key_len as u64,
                places.signature as u64,
                places.signature_len as u64,
            ];
            store_words(&words, out)
        }
    }
}

// Writes the proof of a key and a signature.
#[unsafe(no_mangle)]
pub extern "C" fn fowlcredenza_encode_public_key_proof(
    key: &[u8],
    signature: &[u8],
    out: &mut [u8],
    len: &mut usize,
) -> u32
    ensures { WritesPublicKeyProof (public_key_proof_with key.now signature.now)
        out.old len.old result out.new len.new }
{
    written(encode_public_key_proof(key, signature, out), len)
}
