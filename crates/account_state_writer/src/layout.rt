// The layout of a state, filled from its header and from the lent entries.
ghost use Rattle.std.specs.Prelude.{◌≡◌, ◌+◌, ◌≤◌, length, take};
ghost use Rattle.std.proofs.lemmas.List.Edits.{sets};
ghost use Rattle.octets.specs.Layout.{layout_bytes};
ghost use Rattle.account_state.specs.Reading.{state_header_fields, state_bytes, entry_bytes, entries_bytes};
ghost use Rattle.account_state_writer.specs.Lent.{entry_lent, entries_lent, state_lent};

use crate::slices::{LENT_KEY_OFFSET, LentEntries, LentEntry};
use account_state::StateHeader;
use octets::{store_bytes, store_number};
use protocol::{ACCOUNT_STATE_HEADER_LEN, ACCOUNT_STATE_MAGIC};

fn store_head(out: &mut [u8], header: &StateHeader)
    ensures { out.new ≡ sets out.old 0 (layout_bytes (state_header_fields header.now.flags header.now.sequence
        header.now.spend_threshold header.now.rotate_threshold header.now.recovery_threshold
        header.now.authenticator_count header.now.recovery_since)) }
{
    store_number(out, 0, 4, ACCOUNT_STATE_MAGIC as u64);
    store_number(out, 4, 1, 1);
    store_number(out, 5, 1, header.flags as u64);
    store_number(out, 6, 2, 32);
    store_number(out, 8, 8, header.sequence);
    store_number(out, 16, 2, header.spend_threshold as u64);
    store_number(out, 18, 2, header.rotate_threshold as u64);
    store_number(out, 20, 2, header.recovery_threshold as u64);
    store_number(out, 22, 1, header.authenticator_count as u64);
    store_number(out, 23, 1, 0);
    store_number(out, 24, 8, header.recovery_since);
}

// The 48 bytes before an entry's key: its numbers, its verifier's 34 bytes, and two lengths.
fn store_front(front: &mut [u8], entry: &LentEntry, verifier: &[u8])
    requires { verifier.now ≡ take 34 entry.now.bytes.now }
    ensures { front.new ≡ sets front.old 0 (take 48 (entry_bytes (entry_lent entry.now))) }
{
    store_number(front, 0, 2, 80 + entry.aux_len as u64);
    store_number(front, 2, 2, entry.slot as u64);
    store_number(front, 4, 2, entry.algorithm_id as u64);
    store_number(front, 6, 2, entry.capabilities as u64);
    store_number(front, 8, 2, entry.weight as u64);
    store_bytes(front, 10, verifier);
    store_number(front, 44, 2, 32);
    store_number(front, 46, 2, entry.aux_len as u64);
}

// Its first part is lent just its 48 bytes, so that no store there looks for the end.
fn store_entry(out: &mut [u8], at: usize, entry: &LentEntry)
    requires { at + 14 + length entry.now.bytes.now ≤ length out.old }
    ensures { out.new ≡ sets out.old at (entry_bytes (entry_lent entry.now)) }
{
    let (verifier, behind) = entry.bytes.split_at(LENT_KEY_OFFSET);
    let key = at + 48;
    store_front(&mut out[at..key], entry, verifier);
    store_bytes(out, key, behind);
}

#[tactic(auto, using(crate::proofs::Entries::stores))]
fn store_entries(out: &mut [u8], entries: LentEntries)
    requires { 32 + length (entries_bytes (entries_lent entries)) ≤ length out.old }
    ensures { out.new ≡ sets out.old 32 (entries_bytes (entries_lent entries.entry)) }
{
    let mut at = ACCOUNT_STATE_HEADER_LEN;
    for entry in entries {
        store_entry(out, at, &entry);
        at += 14 + entry.bytes.len();
    }
}

// The whole state, from the front of the buffer.
pub(crate) fn store_state(out: &mut [u8], header: &StateHeader, entries: LentEntries)
    requires count { header.now.authenticator_count ≡ length (entries_lent entries) }
    requires room { 32 + length (entries_bytes (entries_lent entries)) ≤ length out.old }
    ensures { out.new ≡ sets out.old 0 (state_bytes (state_lent header.now (entries_lent entries.entry))) }
{
    store_head(out, header);
    store_entries(out, entries);
}
