// The current state against the witness, its successor and a recovery's wait.
ghost use Rattle.std.specs.Prelude.{◌≡◌, eqb, ◌+◌, Ok};
ghost use Rattle.protocol.specs.Rows.{decide};
ghost use Rattle.state_transition.specs.Transition.{data_rows, current_rows, successor_rows, wait_rows, recovery_rows, succession_rows, transition_rows};

use crate::session::session_free;
use account_state::{check_state, flags_of, recovery_enabled, recovery_since_of, sequence_of};
use protocol::{ACCOUNT_STATE_MAX_LEN, OP_RECOVERY, OP_SPEND, ProtocolError, require};
use since::{is_reached, is_well_formed};

#[tactic(auto, unfolding(protocol::specs::Rows::decide, crate::specs::Transition::data_rows))]
pub fn check_data(current: &[u8], successor: &[u8]) -> Result<(), ProtocolError>
    ensures { result ≡ decide (Ok tt) (data_rows current.now successor.now) }
{
    let invalid = ProtocolError::InvalidState;
    require(current.len() <= ACCOUNT_STATE_MAX_LEN, invalid)?;
    require(successor.len() <= ACCOUNT_STATE_MAX_LEN, invalid)
}

// Whether a sequence is one more; none is after the last.
fn is_next(next: u64, sequence: u64) -> bool
    ensures { result ≡ eqb next (sequence + 1) }
{
    sequence.checked_add(1) == Some(next)
}

#[tactic(auto, using(protocol::proofs::AllPass::deciding), unfolding(protocol::specs::Rows::decide, crate::specs::Transition::current_rows))]
fn check_current(sequence: u64, current: &[u8]) -> Result<(), ProtocolError>
    ensures { result ≡ decide (Ok tt) (current_rows sequence current.now) }
{
    check_state(current)?;
    require(
        sequence == sequence_of(current),
        ProtocolError::InvalidSequence,
    )
}

#[tactic(auto, using(protocol::proofs::AllPass::deciding), unfolding(protocol::specs::Rows::decide, crate::specs::Transition::successor_rows))]
fn check_successor(current: &[u8], successor: &[u8]) -> Result<(), ProtocolError>
    ensures { result ≡ decide (Ok tt) (successor_rows current.now successor.now) }
{
    check_state(successor)?;
    require(session_free(successor), ProtocolError::SessionWithdrawn)?;
    let next = is_next(sequence_of(successor), sequence_of(current));
    require(next, ProtocolError::InvalidSequence)
}

// The state's wait, of which 0 is none, against the since of its input.
#[tactic(auto, unfolding(protocol::specs::Rows::decide, crate::specs::Transition::wait_rows))]
fn check_wait(wait: u64, since: u64) -> Result<(), ProtocolError>
    ensures { result ≡ decide (Ok tt) (wait_rows wait since) }
{
    if wait == 0 {
        return Ok(());
    }
    require(is_well_formed(wait), ProtocolError::InvalidSince)?;
    require(is_well_formed(since), ProtocolError::InvalidSince)?;
    require(is_reached(wait, since), ProtocolError::RecoveryLocked)
}

#[tactic(auto, using(protocol::proofs::AllPass::deciding), unfolding(protocol::specs::Rows::decide, crate::specs::Transition::recovery_rows))]
fn check_recovery(since: u64, current: &[u8]) -> Result<(), ProtocolError>
    ensures { result ≡ decide (Ok tt) (recovery_rows since current.now) }
{
    require(
        recovery_enabled(flags_of(current)),
        ProtocolError::InvalidCapability,
    )?;
    check_wait(recovery_since_of(current), since)
}

// The rows of an operation that changes the state.
#[tactic(auto, using(protocol::proofs::AllPass::deciding), unfolding(protocol::specs::Rows::decide, crate::specs::Transition::succession_rows))]
fn check_change(
    operation: u8,
    since: u64,
    current: &[u8],
    successor: &[u8],
) -> Result<(), ProtocolError>
    ensures { result ≡ decide (Ok tt) (succession_rows operation since current.now successor.now) }
{
    check_successor(current, successor)?;
    if operation == OP_RECOVERY {
        check_recovery(since, current)
    } else {
        Ok(())
    }
}

#[tactic(auto, using(protocol::proofs::AllPass::deciding), unfolding(protocol::specs::Rows::decide, crate::specs::Transition::transition_rows))]
pub fn validate_transition(
    operation: u8,
    sequence: u64,
    since: u64,
    current: &[u8],
    successor: &[u8],
) -> Result<(), ProtocolError>
    ensures { result ≡ decide (Ok tt) (transition_rows operation sequence since current.now successor.now) }
{
    check_current(sequence, current)?;
    if operation == OP_SPEND {
        Ok(())
    } else {
        check_change(operation, since, current, successor)
    }
}
