// The checks of the state that the slices say, before a byte of it is written.
ghost use Rattle.std.specs.Prelude.{◌≡◌, ℕ, ◌+◌, ◌≤◌, length, Ok};
ghost use Rattle.protocol.specs.Rows.{decide};
ghost use Rattle.account_state.specs.State.{summary_of, Light, with_entry};
ghost use Rattle.account_state_writer.specs.Writer.{aux_limit_rows};
ghost use Rattle.account_state_writer.specs.Lent.{entry_lent, entries_lent};
ghost use Rattle.account_state_writer.specs.Checks.{head_checks, entry_checks, entries_checks, written_checks};

use crate::slices::{LentEntries, LentEntry};
use account_state::{StateHeader, StateSummary, capable_share, check_entry_fields};
use protocol::{
    ACCOUNT_STATE_MAX_AUX_LEN, AUTHENTICATOR_MAX_COUNT, CAP_RECOVERY, CAP_ROTATE, CAP_SPEND,
    ProtocolError, STATE_FLAGS_KNOWN_MASK, require,
};

#[tactic(auto, unfolding(protocol::specs::Rows::decide, crate::specs::Checks::head_checks))]
fn check_head(flags: u8, count: u8) -> Result<(), ProtocolError>
    ensures { result ≡ decide (Ok tt) (head_checks flags count) }
{
    let invalid = ProtocolError::InvalidState;
    require(flags <= STATE_FLAGS_KNOWN_MASK, invalid)?;
    require(1 <= count, invalid)?;
    require(count as usize <= AUTHENTICATOR_MAX_COUNT, invalid)
}

#[tactic(auto, using(protocol::proofs::AllPass::deciding), unfolding(protocol::specs::Rows::decide, crate::specs::Checks::entry_checks, crate::specs::Lent::entry_lent, crate::specs::Writer::entry_from))]
fn check_entry(entry: &LentEntry, least: u32) -> Result<(), ProtocolError>
    ensures { result ≡ decide (Ok tt) (entry_checks (entry_lent entry.now) least) }
{
    require(least <= entry.slot as u32, ProtocolError::InvalidState)?;
    check_entry_fields(entry.fields())
}

#[tactic(auto, using(protocol::proofs::AllPass::deciding), unfolding(protocol::specs::Rows::decide, crate::specs::Checks::entries_checks, crate::specs::Lent::entry_lent, crate::specs::Writer::entry_from))]
fn check_entries(entries: LentEntries) -> Result<(), ProtocolError>
    ensures { result ≡ decide (Ok tt) (entries_checks (entries_lent entries.entry) 0) }
{
    let mut least = 0;
    for entry in entries {
        check_entry(&entry, least)?;
        least = entry.slot as u32 + 1;
    }
    Ok(())
}

// With an entry's weight added to that of each capability that it has. The reader's method of this name stays within its crate: no
// public function has a `requires`.
#[tactic(auto, unfolding(account_state::specs::State::with_entry))]
fn with_entry(weights: StateSummary, capabilities: u16, weight: u16) -> StateSummary
    requires { Light 1 weights }
    ensures value { result ≡ with_entry weights capabilities weight }
    ensures room { (left : ℕ) → Light (left + 1) weights → Light left result }
{
    let share = |bit| capable_share(bit, capabilities, weight);
    StateSummary {
        spend_weight: weights.spend_weight + share(CAP_SPEND),
        rotate_weight: weights.rotate_weight + share(CAP_ROTATE),
        recovery_weight: weights.recovery_weight + share(CAP_RECOVERY),
    }
}

// The weights of the holders of each capability.
#[tactic(auto, using(account_state::proofs::Weighing::weighs), unfolding(crate::specs::Lent::entry_lent, crate::specs::Writer::entry_from))]
fn weights_of(entries: LentEntries) -> StateSummary
    requires { length (entries_lent entries) ≤ 16 }
    ensures { result ≡ summary_of (entries_lent entries.entry) }
{
    let mut weights = StateSummary::default();
    for entry in entries {
        weights = with_entry(weights, entry.capabilities, entry.weight);
    }
    weights
}

// No aux is above the limit.
#[tactic(auto, using(crate::proofs::Entries::limits), unfolding(protocol::specs::Rows::decide, crate::specs::Writer::aux_limit_rows))]
fn check_limit(entries: LentEntries) -> Result<(), ProtocolError>
    ensures { result ≡ decide (Ok tt) (aux_limit_rows (entries_lent entries.entry)) }
{
    for entry in entries {
        require(
            entry.aux_len as usize <= ACCOUNT_STATE_MAX_AUX_LEN,
            ProtocolError::AuxTooLong,
        )?;
    }
    Ok(())
}

// All checks of the state: the original's, then the limit.
#[tactic(auto, using(crate::proofs::Checked::checking), unfolding(protocol::specs::Rows::decide, crate::specs::Checks::written_checks, crate::specs::Checks::state_checks))]
pub(crate) fn check_state(header: &StateHeader, entries: LentEntries) -> Result<(), ProtocolError>
    ensures { result ≡ decide (Ok tt) (written_checks header.now.flags header.now.spend_threshold
        header.now.rotate_threshold header.now.recovery_threshold header.now.recovery_since
        (entries_lent entries.entry)) }
{
    check_head(header.flags, entries.entry_count())?;
    check_entries(entries)?;
    header.check_thresholds(weights_of(entries))?;
    check_limit(entries)
}
