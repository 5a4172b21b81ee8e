// The account state: header, authenticator entries one by one, and the whole state validated.
#![tactic(auto)]

mod fields; // fields.rt
mod header; // header.rt
mod entry; // entry.rt
mod walk; // walk.rt
mod thresholds; // thresholds.rt

ghost use Rattle.std.specs.Prelude.{◌≡◌, ◌≤◌, length, Ok};
ghost use Rattle.protocol.specs.Rows.{decide};
ghost use Rattle.account_state.specs.State.{state_rows, read_state, StateWithin, CheckWithin};

pub use self::entry::{
    AuthenticatorEntry, EntryCursor, EntryFields, check_entry_fields, next_entry,
};
pub use self::fields::{
    algorithm_of, aux_of, capabilities_of, code_hash_of, entry_count_of, entry_length_of,
    entry_slot_of, flags_of, hash_type_of, key_of, recovery_enabled, recovery_since_of,
    recovery_threshold_of, rotate_threshold_of, sequence_of, session_enabled, spend_threshold_of,
    weight_of,
};
pub use self::header::StateHeader;
use self::header::{check_head, header_at};
use self::walk::walk_entries;
pub use self::walk::{StateSummary, capable_share};
use protocol::{ProtocolError, require};

// The whole state: its header, and the weights of the holders of each capability; or the number of the first check that fails.
#[tactic(auto, using(crate::proofs::StateLaws::faults), unfolding(protocol::specs::Rows::decide, crate::specs::State::read_state, crate::specs::State::state_end_rows, crate::specs::State::state_header_of))]
pub fn validate_state(state: &[u8]) -> Result<(StateHeader, StateSummary), ProtocolError>
    ensures value { result ≡ read_state state.now }
    ensures state_within { StateWithin state.now result }
{
    check_head(state)?;
    let walk = walk_entries(state, entry_count_of(state))?;
    require(walk.tail == 0, ProtocolError::InvalidState)?;
    let header = header_at(state);
    header.check_thresholds(walk.summary)?;
    Ok((header, walk.summary))
}

// What the checks of the whole state find.
#[tactic(auto, unfolding(crate::specs::State::read_state, crate::specs::State::state_fault))]
pub fn check_state(state: &[u8]) -> Result<(), ProtocolError>
    ensures value { result ≡ decide (Ok tt) (state_rows state.now) }
    ensures check_within { CheckWithin state.now result }
{
    validate_state(state)?;
    Ok(())
}
