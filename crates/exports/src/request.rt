// The verifier request.
ghost use Rattle.std.specs.Prelude.{◌≡◌};
ghost use Rattle.verifier_request.specs.Reader.{read_request};
ghost use Rattle.verifier_request.specs.Reading.{request_with};
ghost use Rattle.exports.specs.Readers.{StoresWords, request_words};
ghost use Rattle.exports.specs.Writers.{lent_written, lent_stored, WritesRequest};

use export_answers::{check_sizes, store_words, written};
use octets::array_32;
use protocol::{ProtocolError, error_number};
use verifier_request::{RequestContent, encode_verifier_request, parse_verifier_request};

// Stores algorithm, slot, operation, profile, the places of digest and key, and place and length of the aux and of the proof.
#[tactic(auto, unfolding(export_answers::specs::Stored::answer_bytes, crate::specs::Readers::request_words))]
#[unsafe(no_mangle)]
pub extern "C" fn fowlcredenza_parse_verifier_request(request: &[u8], out: &mut [u8]) -> u32
    ensures { StoresWords request_words (read_request request.now) out.old result out.new }
{
    match parse_verifier_request(request) {
        Err(error) => error_number(error) as u32,
        Ok(fields) => {
            let words = [
                fields.algorithm_id as u64,
                fields.slot as u64,
                fields.operation as u64,
                fields.verifier_profile as u64,
                fields.authorization_digest as u64,
                fields.key_id as u64,
                fields.aux as u64,
                fields.aux_len as u64,
                fields.proof as u64,
                fields.proof_len as u64,
            ];
            store_words(&words, out)
        }
    }
}

// The request of a digest and a key that are lent as slices.
#[tactic(auto, unfolding(crate::specs::Writers::lent_written, crate::specs::Writers::lent_stored, crate::specs::Writers::buffer_after))]
fn write_request(
    algorithm: u16,
    slot: u16,
    operation: u8,
    profile: u8,
    digest: &[u8],
    key: &[u8],
    aux: &[u8],
    proof: &[u8],
    out: &mut [u8],
) -> Result<usize, ProtocolError>
    ensures value { result ≡ lent_written
        (request_with algorithm slot operation profile digest.now key.now aux.now proof.now)
        out.old }
    ensures out_after { out.new ≡ lent_stored
        (request_with algorithm slot operation profile digest.now key.now aux.now proof.now)
        out.old }
{
    check_sizes(digest, key)?;
    let request = RequestContent {
        algorithm,
        slot,
        operation,
        profile,
        digest: array_32(digest),
        key: array_32(key),
        aux,
        proof,
    };
    encode_verifier_request(&request, out)
}

// Writes a request. A digest or a key of another length than 32 is 7.
#[unsafe(no_mangle)]
pub extern "C" fn fowlcredenza_encode_verifier_request(
    algorithm: u16,
    slot: u16,
    operation: u8,
    profile: u8,
    digest: &[u8],
    key: &[u8],
    aux: &[u8],
    proof: &[u8],
    out: &mut [u8],
    len: &mut usize,
) -> u32
    ensures { WritesRequest (request_with algorithm slot operation profile digest.now key.now aux.now proof.now)
        out.old len.old result out.new len.new }
{
    let answer = write_request(
        algorithm, slot, operation, profile, digest, key, aux, proof, out,
    );
    written(answer, len)
}
