// The fields of a `VerifierRequest` for programs in other languages. Each function returns the number of the request's reader,
// then 5 where `out` is too short for what it hands out; a refusal leaves `out` and `len` as they were.
#![tactic(auto)]

ghost use Rattle.std.specs.Prelude.{◌≡◌};
ghost use Rattle.verifier_request.specs.Reading.{RequestReading};
ghost use Rattle.held_request.specs.Held.{places_or_none, held_reading};
ghost use Rattle.exports_request.specs.Parts.{number_words, StoresNumbers, StoresField};

use export_answers::{store_part, store_words};
use held_request::VerifierRequest;

// The request's four numbers, as 64-bit words.
fn number_words(held: &VerifierRequest) -> [u8; 32]
    ensures { result ≡ number_words (held_reading held.now.request.now (places_or_none held.now.places)) }
{
    let words = [
        held.algorithm_id() as u64,
        held.slot() as u64,
        held.operation() as u64,
        held.verifier_profile() as u64,
    ];
    let mut bytes = [0u8; 32];
    store_words(&words, &mut bytes);
    bytes
}

// Stores algorithm, slot, operation and profile.
#[unsafe(no_mangle)]
pub extern "C" fn fowlcredenza_request_numbers(request: &[u8], out: &mut [u8]) -> u32
    ensures { StoresNumbers request.now out.old result out.new }
{
    let mut len: usize = 0;
    let held = VerifierRequest::parse(request);
    store_part(held.refusal(), &number_words(&held), out, &mut len)
}

// Stores the digest that the request is for.
#[unsafe(no_mangle)]
pub extern "C" fn fowlcredenza_request_authorization_digest(
    request: &[u8],
    out: &mut [u8],
    len: &mut usize,
) -> u32
    ensures { StoresField (λ (q : RequestReading). q.digest) request.now out.old len.old result
        out.new len.new }
{
    let held = VerifierRequest::parse(request);
    store_part(held.refusal(), held.authorization_digest(), out, len)
}

// Stores the key.
#[unsafe(no_mangle)]
pub extern "C" fn fowlcredenza_request_key_id(
    request: &[u8],
    out: &mut [u8],
    len: &mut usize,
) -> u32
    ensures { StoresField (λ (q : RequestReading). q.key) request.now out.old len.old result
        out.new len.new }
{
    let held = VerifierRequest::parse(request);
    store_part(held.refusal(), held.key_id(), out, len)
}

// Stores the aux.
#[unsafe(no_mangle)]
pub extern "C" fn fowlcredenza_request_aux(request: &[u8], out: &mut [u8], len: &mut usize) -> u32
    ensures { StoresField (λ (q : RequestReading). q.aux) request.now out.old len.old result
        out.new len.new }
{
    let held = VerifierRequest::parse(request);
    store_part(held.refusal(), held.aux(), out, len)
}

// Stores the proof.
#[unsafe(no_mangle)]
pub extern "C" fn fowlcredenza_request_proof(request: &[u8], out: &mut [u8], len: &mut usize) -> u32
    ensures { StoresField (λ (q : RequestReading). q.proof) request.now out.old len.old result
        out.new len.new }
{
    let held = VerifierRequest::parse(request);
    store_part(held.refusal(), held.proof(), out, len)
}
