// The fields of an account state and of its entries, by their names; zero where the bytes end before them.
// A function for each, over `u8_at` and its like, so that each field has the name that its definition has.
ghost use Rattle.std.specs.Prelude.{◌≡◌};
ghost use Rattle.account_state.specs.Fields.{state_magic_of, state_version_of, flags_of, recovery_enabled, session_enabled, state_header_length_of, sequence_of, spend_threshold_of, rotate_threshold_of, recovery_threshold_of, entry_count_of, state_reserved_of, recovery_since_of, entry_length_of, entry_slot_of, algorithm_of, capabilities_of, weight_of, hash_type_of, abi_of, code_hash_of, key_length_of, aux_length_of, key_of, aux_of};

use octets::{part, u8_at, u16_at, u32_at, u64_at};
use protocol::{STATE_FLAG_RECOVERY_ENABLED, STATE_FLAG_SESSION_ENABLED};

// Where an entry's code hash begins, and where its key does, behind the numbers.
pub(crate) const CODE_HASH_OFFSET: usize = 12;

pub(crate) const KEY_OFFSET: usize = 48;

pub(crate) fn state_magic_of(state: &[u8]) -> u32
    ensures { result ≡ state_magic_of state.now }
{
    u32_at(state, 0)
}

pub(crate) fn state_version_of(state: &[u8]) -> u8
    ensures { result ≡ state_version_of state.now }
{
    u8_at(state, 4)
}

pub fn flags_of(state: &[u8]) -> u8
    ensures { result ≡ flags_of state.now }
{
    u8_at(state, 5)
}

pub fn recovery_enabled(flags: u8) -> bool
    ensures { result ≡ recovery_enabled flags }
{
    flags / STATE_FLAG_RECOVERY_ENABLED % 2 == 1
}

pub fn session_enabled(flags: u8) -> bool
    ensures { result ≡ session_enabled flags }
{
    flags / STATE_FLAG_SESSION_ENABLED % 2 == 1
}

pub(crate) fn state_header_length_of(state: &[u8]) -> u16
    ensures { result ≡ state_header_length_of state.now }
{
    u16_at(state, 6)
}

pub fn sequence_of(state: &[u8]) -> u64
    ensures { result ≡ sequence_of state.now }
{
    u64_at(state, 8)
}

pub fn spend_threshold_of(state: &[u8]) -> u16
    ensures { result ≡ spend_threshold_of state.now }
{
    u16_at(state, 16)
}

pub fn rotate_threshold_of(state: &[u8]) -> u16
    ensures { result ≡ rotate_threshold_of state.now }
{
    u16_at(state, 18)
}

pub fn recovery_threshold_of(state: &[u8]) -> u16
    ensures { result ≡ recovery_threshold_of state.now }
{
    u16_at(state, 20)
}

pub fn entry_count_of(state: &[u8]) -> u8
    ensures { result ≡ entry_count_of state.now }
{
    u8_at(state, 22)
}

pub(crate) fn state_reserved_of(state: &[u8]) -> u8
    ensures { result ≡ state_reserved_of state.now }
{
    u8_at(state, 23)
}

pub fn recovery_since_of(state: &[u8]) -> u64
    ensures { result ≡ recovery_since_of state.now }
{
    u64_at(state, 24)
}

pub fn entry_length_of(entry: &[u8]) -> u16
    ensures { result ≡ entry_length_of entry.now }
{
    u16_at(entry, 0)
}

pub fn entry_slot_of(entry: &[u8]) -> u16
    ensures { result ≡ entry_slot_of entry.now }
{
    u16_at(entry, 2)
}

pub fn algorithm_of(entry: &[u8]) -> u16
    ensures { result ≡ algorithm_of entry.now }
{
    u16_at(entry, 4)
}

pub fn capabilities_of(entry: &[u8]) -> u16
    ensures { result ≡ capabilities_of entry.now }
{
    u16_at(entry, 6)
}

pub fn weight_of(entry: &[u8]) -> u16
    ensures { result ≡ weight_of entry.now }
{
    u16_at(entry, 8)
}

pub fn hash_type_of(entry: &[u8]) -> u8
    ensures { result ≡ hash_type_of entry.now }
{
    u8_at(entry, 10)
}

pub(crate) fn abi_of(entry: &[u8]) -> u8
    ensures { result ≡ abi_of entry.now }
{
    u8_at(entry, 11)
}

pub fn code_hash_of(entry: &[u8]) -> &[u8]
    ensures { result.now ≡ code_hash_of entry.now }
{
    part(entry, CODE_HASH_OFFSET, 32)
}

pub(crate) fn key_length_of(entry: &[u8]) -> u16
    ensures { result ≡ key_length_of entry.now }
{
    u16_at(entry, 44)
}

pub(crate) fn aux_length_of(entry: &[u8]) -> u16
    ensures { result ≡ aux_length_of entry.now }
{
    u16_at(entry, 46)
}

pub fn key_of(entry: &[u8]) -> &[u8]
    ensures { result.now ≡ key_of entry.now }
{
    part(entry, KEY_OFFSET, key_length_of(entry) as usize)
}

pub fn aux_of(entry: &[u8]) -> &[u8]
    ensures { result.now ≡ aux_of entry.now }
{
    let start = KEY_OFFSET + key_length_of(entry) as usize;
    part(entry, start, aux_length_of(entry) as usize)
}
