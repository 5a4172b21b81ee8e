// The account state.
ghost use Rattle.account_state.specs.State.{read_state_header, read_state, entry_step};
ghost use Rattle.exports.specs.Readers.{StoresWords, header_words, state_words, step_words};
ghost use Rattle.exports.specs.Writers.{WritesState};

use account_state::{EntryCursor, StateHeader, next_entry, validate_state};
use account_state_writer::encode_state;
use export_answers::{store_words, written};
use protocol::error_number;

// Stores flags, sequence, spend, rotate and recovery thresholds, count and recovery_since.
#[tactic(auto, unfolding(export_answers::specs::Stored::answer_bytes, crate::specs::Readers::header_words))]
#[unsafe(no_mangle)]
pub extern "C" fn fowlcredenza_parse_state_header(state: &[u8], out: &mut [u8]) -> u32
    ensures { StoresWords header_words (read_state_header state.now) out.old result out.new }
{
    match StateHeader::parse(state) {
        Err(error) => error_number(error) as u32,
        Ok(header) => {
            let words = [
                header.flags as u64,
                header.sequence,
                header.spend_threshold as u64,
                header.rotate_threshold as u64,
                header.recovery_threshold as u64,
                header.authenticator_count as u64,
                header.recovery_since,
            ];
            store_words(&words, out)
        }
    }
}

// Stores the header's seven numbers, and the weights of the holders of spend, rotate and recovery.
#[tactic(auto, unfolding(export_answers::specs::Stored::answer_bytes, crate::specs::Readers::state_words, crate::specs::Readers::header_words))]
#[unsafe(no_mangle)]
pub extern "C" fn fowlcredenza_validate_state(state: &[u8], out: &mut [u8]) -> u32
    ensures { StoresWords state_words (read_state state.now) out.old result out.new }
{
    match validate_state(state) {
        Err(error) => error_number(error) as u32,
        Ok((header, summary)) => {
            let words = [
                header.flags as u64,
                header.sequence,
                header.spend_threshold as u64,
                header.rotate_threshold as u64,
                header.recovery_threshold as u64,
                header.authenticator_count as u64,
                header.recovery_since,
                summary.spend_weight as u64,
                summary.rotate_weight as u64,
                summary.recovery_weight as u64,
            ];
            store_words(&words, out)
        }
    }
}

// Stores slot, algorithm, capabilities, weight, hash type, ABI, the place of the code hash, place and length of the key and of
// the aux, and offset and least slot of the next entry.
#[tactic(auto, unfolding(export_answers::specs::Stored::answer_bytes, crate::specs::Readers::step_words))]
#[unsafe(no_mangle)]
pub extern "C" fn fowlcredenza_next_entry(
    state: &[u8],
    offset: usize,
    least: u32,
    out: &mut [u8],
) -> u32
    ensures { StoresWords step_words (entry_step state.now (record { offset = offset; least = least })) out.old result out.new }
{
    match next_entry(state, EntryCursor { offset, least }) {
        Err(error) => error_number(error) as u32,
        Ok((entry, next)) => {
            let words = [
                entry.slot as u64,
                entry.algorithm_id as u64,
                entry.capabilities as u64,
                entry.weight as u64,
                entry.verifier_hash_type as u64,
                entry.verifier_abi as u64,
                entry.verifier_code_hash as u64,
                entry.key_id as u64,
                entry.key_len as u64,
                entry.aux as u64,
                entry.aux_len as u64,
                next.offset as u64,
                next.least as u64,
            ];
            store_words(&words, out)
        }
    }
}

// Writes a state. `fields` has slot, algorithm, capabilities, weight and length of aux of each entry; `bytes` has its hash type, ABI, code hash,
// key and aux.
#[unsafe(no_mangle)]
pub extern "C" fn fowlcredenza_encode_state(
    flags: u8,
    sequence: u64,
    spend: u16,
    rotate: u16,
    recovery: u16,
    since: u64,
    fields: &[u16],
    bytes: &[u8],
    out: &mut [u8],
    len: &mut usize,
) -> u32
    ensures { WritesState flags sequence spend rotate recovery since fields.now bytes.now
        out.old len.old result out.new len.new }
{
    let answer = encode_state(
        flags, sequence, spend, rotate, recovery, since, fields, bytes, out,
    );
    written(answer, len)
}
