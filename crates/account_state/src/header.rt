// The header of an account state.
ghost use Rattle.std.specs.Prelude.{◌≡◌, ◌≤◌, length, Ok};
ghost use Rattle.protocol.specs.Rows.{decide};
ghost use Rattle.account_state.specs.State.{state_header_rows, state_header_of, read_state_header};

use crate::fields::{
    entry_count_of, flags_of, recovery_since_of, recovery_threshold_of, rotate_threshold_of,
    sequence_of, spend_threshold_of, state_header_length_of, state_magic_of, state_reserved_of,
    state_version_of,
};
use protocol::{
    ACCOUNT_STATE_HEADER_LEN, ACCOUNT_STATE_MAGIC, ACCOUNT_STATE_MAX_LEN, ACCOUNT_STATE_VERSION,
    AUTHENTICATOR_MAX_COUNT, ProtocolError, STATE_FLAGS_KNOWN_MASK, require,
};

#[derive(Drop)]
pub struct StateHeader {
    pub flags: u8,
    pub sequence: u64,
    pub spend_threshold: u16,
    pub rotate_threshold: u16,
    pub recovery_threshold: u16,
    pub authenticator_count: u8,
    pub recovery_since: u64,
}

// The length comes first, so that no read behind it looks for the end of the bytes.
#[tactic(auto, unfolding(protocol::specs::Rows::decide, crate::specs::State::state_header_rows))]
pub(crate) fn check_head(state: &[u8]) -> Result<(), ProtocolError>
    ensures { result ≡ decide (Ok tt) (state_header_rows state.now) }
{
    let invalid = ProtocolError::InvalidState;
    require(ACCOUNT_STATE_HEADER_LEN <= state.len(), invalid)?;
    require(state.len() <= ACCOUNT_STATE_MAX_LEN, invalid)?;
    require(state_magic_of(state) == ACCOUNT_STATE_MAGIC, invalid)?;
    require(
        state_version_of(state) == ACCOUNT_STATE_VERSION,
        ProtocolError::UnsupportedVersion,
    )?;
    require(flags_of(state) <= STATE_FLAGS_KNOWN_MASK, invalid)?;
    require(
        state_header_length_of(state) as usize == ACCOUNT_STATE_HEADER_LEN,
        invalid,
    )?;
    require(state_reserved_of(state) == 0, invalid)?;
    let count = entry_count_of(state);
    require(1 <= count, invalid)?;
    require(count as usize <= AUTHENTICATOR_MAX_COUNT, invalid)
}

// The fields of a header that is present.
#[tactic(auto, using(crate::proofs::StateLaws::fronts), unfolding(crate::specs::State::state_header_of))]
pub(crate) fn header_at(state: &[u8]) -> StateHeader
    requires { 32 ≤ length state.now }
    ensures { result ≡ state_header_of state.now }
{
    let head = &state[0..ACCOUNT_STATE_HEADER_LEN];
    StateHeader {
        flags: flags_of(head),
        sequence: sequence_of(head),
        spend_threshold: spend_threshold_of(head),
        rotate_threshold: rotate_threshold_of(head),
        recovery_threshold: recovery_threshold_of(head),
        authenticator_count: entry_count_of(head),
        recovery_since: recovery_since_of(head),
    }
}

impl StateHeader {
    // The header, or 21 or 32.
    #[tactic(auto, using(crate::proofs::StateLaws::heads), unfolding(crate::specs::State::read_state_header))]
    pub fn parse(state: &[u8]) -> Result<StateHeader, ProtocolError>
        ensures { result ≡ read_state_header state.now }
    {
        check_head(state)?;
        Ok(header_at(state))
    }
}
