// What the reader finds in a request, as numbers and places.
ghost use Rattle.std.specs.Prelude.{◌≡◌};
ghost use Rattle.verifier_request.specs.Reader.{read_request};
ghost use Rattle.held_request.specs.Held.{request_places_of};

use octets::Place;
use protocol::ProtocolError;
use verifier_request::parse_verifier_request;

// The numbers of a request, and the places of its parts.
#[derive(Clone, Copy)]
pub struct RequestPlaces {
    pub algorithm_id: u16,
    pub slot: u16,
    pub operation: u8,
    pub verifier_profile: u8,
    pub authorization_digest: Place,
    pub key_id: Place,
    pub aux: Place,
    pub proof: Place,
}

// What was read, or the refusal.
#[tactic(auto, unfolding(crate::specs::Held::request_places_of))]
pub fn read_places(request: &[u8]) -> Result<RequestPlaces, ProtocolError>
    ensures { result ≡ request_places_of (read_request request.now) }
{
    let fields = parse_verifier_request(request)?;
    Ok(RequestPlaces {
        algorithm_id: fields.algorithm_id,
        slot: fields.slot,
        operation: fields.operation,
        verifier_profile: fields.verifier_profile,
        authorization_digest: Place {
            start: fields.authorization_digest,
            len: 32,
        },
        key_id: Place {
            start: fields.key_id,
            len: 32,
        },
        aux: Place {
            start: fields.aux,
            len: fields.aux_len,
        },
        proof: Place {
            start: fields.proof,
            len: fields.proof_len,
        },
    })
}
