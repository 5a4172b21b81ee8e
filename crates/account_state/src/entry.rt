// The authenticator entries of an account state, one step for each.
ghost use Rattle.std.specs.Prelude.{◌≡◌, ◌+◌, ◌≤◌, length, Ok};
ghost use Rattle.protocol.specs.Rows.{decide};
ghost use Rattle.account_state.specs.State.{entry_layout_rows, entry_field_rows, entry_fields_of, entry_rows, entry_at, first_entry, entry_cursor_behind, entry_step, StepWithin};

use crate::fields::{
    CODE_HASH_OFFSET, KEY_OFFSET, abi_of, algorithm_of, aux_length_of, capabilities_of,
    entry_length_of, entry_slot_of, hash_type_of, key_length_of, weight_of,
};
use octets::rest;
use protocol::{
    ACCOUNT_STATE_HEADER_LEN, ACCOUNT_STATE_MAX_AUX_LEN, CAP_KNOWN_MASK, ProtocolError,
    VERIFIER_ABI_V1, is_supported_algorithm, require,
};

// Where the next entry begins, and the least slot that it may have: one above its predecessor's.
#[derive(Drop)]
pub struct EntryCursor {
    pub offset: usize,
    pub least: u32,
}

// An entry; its code hash of 32 bytes, its key and its aux are given by their places in the state.
#[derive(Drop)]
pub struct AuthenticatorEntry {
    pub slot: u16,
    pub algorithm_id: u16,
    pub capabilities: u16,
    pub weight: u16,
    pub verifier_hash_type: u8,
    pub verifier_abi: u8,
    pub verifier_code_hash: usize,
    pub key_id: usize,
    pub key_len: usize,
    pub aux: usize,
    pub aux_len: usize,
}

// The numbers of an entry that its checks read; the entry is read or is to be written.
#[derive(Drop)]
pub struct EntryFields {
    pub algorithm_id: u16,
    pub capabilities: u16,
    pub weight: u16,
    pub verifier_hash_type: u8,
    pub verifier_abi: u8,
    pub key_len: u16,
    pub aux_len: u16,
}

impl EntryCursor {
    // The first entry follows the header.
    pub fn first() -> EntryCursor
        ensures { result ≡ first_entry }
    {
        EntryCursor {
            offset: ACCOUNT_STATE_HEADER_LEN,
            least: 0,
        }
    }
}

// The lengths and the slot of the entry at the front of the bytes, which have its 48.
#[tactic(auto, unfolding(protocol::specs::Rows::decide, crate::specs::State::entry_layout_rows))]
fn check_layout(entry: &[u8], least: u32) -> Result<(), ProtocolError>
    requires { 48 ≤ length entry.now }
    ensures { result ≡ decide (Ok tt) (entry_layout_rows entry.now least) }
{
    let invalid = ProtocolError::InvalidState;
    let len = entry_length_of(entry) as usize;
    let parts = 48 + key_length_of(entry) as usize + aux_length_of(entry) as usize;
    require(len == parts, invalid)?;
    require(len <= entry.len(), invalid)?;
    require(least <= entry_slot_of(entry) as u32, invalid)
}

// The checks of an entry's fields, where it is read or is to be written. The algorithm is looked up once the checks before it
// passed, so that nothing has to be kept of it.
#[tactic(auto, unfolding(protocol::specs::Rows::decide, crate::specs::State::entry_field_rows))]
pub fn check_entry_fields(fields: EntryFields) -> Result<(), ProtocolError>
    ensures { result ≡ decide (Ok tt) (entry_field_rows fields) }
{
    let invalid = ProtocolError::InvalidState;
    let verifier = ProtocolError::InvalidVerifierRef;
    require(1 <= fields.weight, invalid)?;
    require(fields.capabilities <= CAP_KNOWN_MASK, invalid)?;
    require(fields.verifier_hash_type <= 1, verifier)?;
    require(fields.verifier_abi == VERIFIER_ABI_V1, verifier)?;
    require(
        is_supported_algorithm(fields.algorithm_id),
        ProtocolError::UnsupportedAlgorithm,
    )?;
    require(fields.key_len == 32, invalid)?;
    require(1 <= fields.aux_len, invalid)
}

fn entry_fields_of(entry: &[u8]) -> EntryFields
    ensures { result ≡ entry_fields_of entry.now }
{
    EntryFields {
        algorithm_id: algorithm_of(entry),
        capabilities: capabilities_of(entry),
        weight: weight_of(entry),
        verifier_hash_type: hash_type_of(entry),
        verifier_abi: abi_of(entry),
        key_len: key_length_of(entry),
        aux_len: aux_length_of(entry),
    }
}

// The length comes first, so that no read behind it looks for the end of the bytes.
#[tactic(auto, using(protocol::proofs::AllPass::deciding), unfolding(protocol::specs::Rows::decide, crate::specs::State::entry_rows, crate::specs::State::original_entry_rows, crate::specs::State::entry_layout_rows))]
pub(crate) fn check_entry(entry: &[u8], least: u32) -> Result<(), ProtocolError>
    ensures { result ≡ decide (Ok tt) (entry_rows entry.now least) }
{
    require(48 <= entry.len(), ProtocolError::InvalidState)?;
    check_layout(entry, least)?;
    check_entry_fields(entry_fields_of(entry))?;
    require(
        aux_length_of(entry) as usize <= ACCOUNT_STATE_MAX_AUX_LEN,
        ProtocolError::AuxTooLong,
    )
}

// The fields of an entry at a place whose first 48 bytes the state has.
#[tactic(auto, unfolding(crate::specs::State::entry_at))]
fn entry_at(state: &[u8], at: usize) -> AuthenticatorEntry
    requires { at + 48 ≤ length state.now }
    ensures { result ≡ entry_at state.now at }
{
    let entry = &state[at..];
    let key = key_length_of(entry) as usize;
    AuthenticatorEntry {
        slot: entry_slot_of(entry),
        algorithm_id: algorithm_of(entry),
        capabilities: capabilities_of(entry),
        weight: weight_of(entry),
        verifier_hash_type: hash_type_of(entry),
        verifier_abi: abi_of(entry),
        verifier_code_hash: at + CODE_HASH_OFFSET,
        key_id: at + KEY_OFFSET,
        key_len: key,
        aux: at + KEY_OFFSET + key,
        aux_len: aux_length_of(entry) as usize,
    }
}

#[tactic(auto, unfolding(crate::specs::State::entry_cursor_behind))]
fn cursor_behind(state: &[u8], at: usize) -> EntryCursor
    requires { at + 48 ≤ length state.now }
    ensures { result ≡ entry_cursor_behind state.now at }
{
    let entry = &state[at..];
    EntryCursor {
        offset: at + entry_length_of(entry) as usize,
        least: entry_slot_of(entry) as u32 + 1,
    }
}

// The entry at the cursor, and the cursor behind it.
#[tactic(auto, using(crate::proofs::EntriesWalkLaws::passing), unfolding(crate::specs::State::entry_step, crate::specs::State::entry_at))]
pub fn next_entry(
    state: &[u8],
    cursor: EntryCursor,
) -> Result<(AuthenticatorEntry, EntryCursor), ProtocolError>
    ensures value { result ≡ entry_step state.now cursor }
    ensures step_within { StepWithin result }
{
    let at = cursor.offset;
    check_entry(rest(state, at), cursor.least)?;
    Ok((entry_at(state, at), cursor_behind(state, at)))
}
