// Whether a state carries a session: its flag, or an entry that may issue one.
ghost use Rattle.std.specs.Prelude.{◌≡◌};
ghost use Rattle.account_state.specs.Reading.{state_reading};
ghost use Rattle.state_transition.specs.Session.{session_free};

use account_state::{capabilities_of, entry_count_of, entry_length_of, flags_of, session_enabled};
use octets::rest;
use protocol::{ACCOUNT_STATE_HEADER_LEN, CAP_SESSION_ISSUE};

// Neither the flag nor the capability, in any bytes.
#[tactic(auto, using(crate::proofs::SessionLaws::looks), unfolding(protocol::specs::Policy::has_capability, account_state::specs::Reading::entry_of))]
pub(crate) fn session_free(state: &[u8]) -> bool
    ensures { result ≡ session_free (state_reading state.now) }
{
    if session_enabled(flags_of(state)) {
        return false;
    }
    let mut entry = rest(state, ACCOUNT_STATE_HEADER_LEN);
    for _ in 0..entry_count_of(state) {
        if capabilities_of(entry) / CAP_SESSION_ISSUE % 2 == 1 {
            return false;
        }
        entry = rest(entry, entry_length_of(entry) as usize);
    }
    true
}
