// The walk over all entries: their weights by capability, and how many bytes follow them.
ghost use Rattle.std.specs.Prelude.{◌≡◌, ℕ, ◌+◌, ◌≤◌, ◌<◌, length};
ghost use Rattle.account_state.specs.Fields.{entry_bytes_of};
ghost use Rattle.account_state.specs.Reading.{capable_share};
ghost use Rattle.account_state.specs.State.{Light, with_entry};
ghost use Rattle.account_state.specs.EntriesWalk.{walk_entries};

use crate::entry::check_entry;
use crate::fields::{capabilities_of, entry_length_of, entry_slot_of, weight_of};
use protocol::{ACCOUNT_STATE_HEADER_LEN, CAP_RECOVERY, CAP_ROTATE, CAP_SPEND, ProtocolError};

#[derive(Clone, Copy, Default)]
pub struct StateSummary {
    pub spend_weight: u32,
    pub rotate_weight: u32,
    pub recovery_weight: u32,
}

// The bytes behind the last entry, and the weights of all.
#[derive(Clone, Copy)]
pub(crate) struct EntriesWalk {
    pub tail: usize,
    pub summary: StateSummary,
}

// The weight that an entry adds to the capability of a bit; 0 is no bit.
pub fn capable_share(bit: u16, capabilities: u16, weight: u16) -> u32
    ensures { (result ≡ capable_share bit capabilities weight) × (result < 65536) }
{
    if bit == 0 {
        return 0;
    }
    (capabilities / bit % 2) as u32 * weight as u32
}

impl StateSummary {
    // With an entry's weight added to that of each capability that it has.
    #[tactic(auto, unfolding(crate::specs::State::with_entry))]
    pub(crate) fn with_entry(self, capabilities: u16, weight: u16) -> StateSummary
        requires { Light 1 self }
        ensures value { result ≡ with_entry self capabilities weight }
        ensures room { (left : ℕ) → Light (left + 1) self → Light left result }
    {
        let share = |bit| capable_share(bit, capabilities, weight);
        StateSummary {
            spend_weight: self.spend_weight + share(CAP_SPEND),
            rotate_weight: self.rotate_weight + share(CAP_ROTATE),
            recovery_weight: self.recovery_weight + share(CAP_RECOVERY),
        }
    }
}

#[tactic(auto, using(crate::proofs::EntriesWalkLaws::passing))]
pub(crate) fn walk_entries(state: &[u8], count: u8) -> Result<EntriesWalk, ProtocolError>
    requires { (32 ≤ length state.now) × (count ≤ 16) }
    ensures { result ≡ walk_entries count (entry_bytes_of state.now) }
{
    let mut entry = &state[ACCOUNT_STATE_HEADER_LEN..];
    let mut least = 0;
    let mut summary = StateSummary::default();
    for _ in 0..count {
        check_entry(entry, least)?;
        summary = summary.with_entry(capabilities_of(entry), weight_of(entry));
        least = entry_slot_of(entry) as u32 + 1;
        let len = entry_length_of(entry) as usize;
        entry = &entry[len..];
    }
    Ok(EntriesWalk {
        tail: entry.len(),
        summary,
    })
}
