// The authenticator entries of a state, by slot.
ghost use Rattle.std.specs.Prelude.{◌≡◌};
ghost use Rattle.quorum.specs.Places.{entry_place, entry_in};

use account_state::{entry_count_of, entry_length_of, entry_slot_of};
use octets::rest;
use protocol::ACCOUNT_STATE_HEADER_LEN;

// The place of the first entry with the slot.
#[tactic(auto, using(crate::proofs::PlaceLaws::seeks))]
pub fn find_authenticator(state: &[u8], slot: u16) -> Option<usize>
    ensures { result ≡ entry_place slot state.now }
{
    let mut at = ACCOUNT_STATE_HEADER_LEN;
    for _ in 0..entry_count_of(state) {
        let entry = rest(state, at);
        if entry_slot_of(entry) == slot {
            return Some(at);
        }
        at += entry_length_of(entry) as usize;
    }
    None
}

// The bytes from the entry on; none where there is no entry.
pub fn entry_in(state: &[u8], place: Option<usize>) -> &[u8]
    ensures { result.now ≡ entry_in state.now place }
{
    match place {
        Some(at) => rest(state, at),
        None => &[],
    }
}
