// The verifier request that holds its bytes: a struct of the request's slice and of what the reader found in it, with thin
// functions over it.
#![tactic(auto)]

mod places; // places.rt

ghost use Rattle.std.specs.Prelude.{◌≡◌};
ghost use Rattle.octets.specs.Places.{bytes_at};
ghost use Rattle.protocol.specs.Rows.{check_number};
ghost use Rattle.verifier_request.specs.Reader.{read_request};
ghost use Rattle.held_request.specs.Held.{request_places_of, places_or_none, places_in, parsed, is_for};

pub use self::places::{RequestPlaces, read_places};
use octets::{part_at, same_bytes};
use protocol::{ProtocolError, check_number};

// A request's bytes, and what was read in them.
#[derive(Clone, Copy)]
pub struct VerifierRequest<'a> {
    pub request: &'a [u8],
    pub places: Result<RequestPlaces, ProtocolError>,
}

impl<'a> VerifierRequest<'a> {
    // The request in these bytes, read or refused.
    pub fn parse(request: &'a [u8]) -> Self
        ensures { result ≡ parsed request.entry }
    {
        Self {
            request,
            places: read_places(request),
        }
    }

    // 0 where the request was read, else the refusal's number.
    pub fn refusal(&self) -> u8
        ensures { result ≡ check_number self.now.places }
    {
        check_number(self.places)
    }

    // Its numbers; 0 where it was refused.
    #[tactic(auto, unfolding(crate::specs::Held::places_or_none))]
    pub fn algorithm_id(&self) -> u16
        ensures { result ≡ (places_or_none self.now.places).algorithm_id }
    {
        self.places.map_or(0, |places| places.algorithm_id)
    }

    #[tactic(auto, unfolding(crate::specs::Held::places_or_none))]
    pub fn slot(&self) -> u16
        ensures { result ≡ (places_or_none self.now.places).slot }
    {
        self.places.map_or(0, |places| places.slot)
    }

    #[tactic(auto, unfolding(crate::specs::Held::places_or_none))]
    pub fn operation(&self) -> u8
        ensures { result ≡ (places_or_none self.now.places).operation }
    {
        self.places.map_or(0, |places| places.operation)
    }

    #[tactic(auto, unfolding(crate::specs::Held::places_or_none))]
    pub fn verifier_profile(&self) -> u8
        ensures { result ≡ (places_or_none self.now.places).verifier_profile }
    {
        self.places.map_or(0, |places| places.verifier_profile)
    }

    // Its parts; no byte where it was refused.
    #[tactic(auto, unfolding(crate::specs::Held::places_or_none, octets::specs::Places::bytes_at))]
    pub fn authorization_digest(&self) -> &'a [u8]
        ensures { result.now ≡ bytes_at self.now.request.now (places_or_none self.now.places).authorization_digest }
    {
        self.places.map_or(
            &[],
            |places| part_at(self.request, places.authorization_digest),
        )
    }

    #[tactic(auto, unfolding(crate::specs::Held::places_or_none, octets::specs::Places::bytes_at))]
    pub fn key_id(&self) -> &'a [u8]
        ensures { result.now ≡ bytes_at self.now.request.now (places_or_none self.now.places).key_id }
    {
        self.places
            .map_or(&[], |places| part_at(self.request, places.key_id))
    }

    #[tactic(auto, unfolding(crate::specs::Held::places_or_none, octets::specs::Places::bytes_at))]
    pub fn aux(&self) -> &'a [u8]
        ensures { result.now ≡ bytes_at self.now.request.now (places_or_none self.now.places).aux }
    {
        self.places
            .map_or(&[], |places| part_at(self.request, places.aux))
    }

    #[tactic(auto, unfolding(crate::specs::Held::places_or_none, octets::specs::Places::bytes_at))]
    pub fn proof(&self) -> &'a [u8]
        ensures { result.now ≡ bytes_at self.now.request.now (places_or_none self.now.places).proof }
    {
        self.places
            .map_or(&[], |places| part_at(self.request, places.proof))
    }
}

// Whether these bytes are a request for this digest.
#[tactic(auto, unfolding(crate::specs::Held::is_for))]
pub fn is_for(request: &[u8], digest: &[u8]) -> bool
    ensures { result ≡ is_for request.now digest.now }
{
    let held = VerifierRequest::parse(request);
    held.places.is_ok() && same_bytes(held.authorization_digest(), digest)
}
