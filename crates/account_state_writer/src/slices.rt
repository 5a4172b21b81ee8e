// The slices that a state's writer is lent, as its entries.
ghost use Rattle.std.specs.Prelude.{◌≡◌, ◌+◌, ◌*◌, ◌≤◌, eqb, length};
ghost use Rattle.account_state_writer.specs.Slices.{lent_aux_offset, lent_bytes};
ghost use Rattle.account_state_writer.specs.Entries.{bytes_needed};

use account_state::EntryFields;
use protocol::{ACCOUNT_STATE_HEADER_LEN, ACCOUNT_STATE_MAX_LEN, ProtocolError, require};

// How many numbers an entry has: slot, algorithm, capabilities, weight, length of aux.
const LENT_WIDTH: usize = 5;

// Where an entry's key begins in its bytes, behind hash type, ABI and code hash, and where its aux does.
pub(crate) const LENT_KEY_OFFSET: usize = 34;

const LENT_AUX_OFFSET: usize = 66;

// One entry: its numbers, and its own bytes.
#[derive(Drop)]
pub(crate) struct LentEntry<'a> {
    pub slot: u16,
    pub algorithm_id: u16,
    pub capabilities: u16,
    pub weight: u16,
    pub aux_len: u16,
    pub bytes: &'a [u8],
    ghost whole: { length bytes.now ≡ lent_aux_offset + aux_len },
}

// The entries that are left, in slices that agree with each other.
#[derive(Clone, Copy)]
pub(crate) struct LentEntries<'a> {
    numbers: &'a [[u16; LENT_WIDTH]],
    bytes: &'a [u8],
    ghost agree: { bytes_needed numbers.now ≡ length bytes.now },
    ghost few: { length numbers.now ≤ 255 },
    ghost short: { 32 + 14 * length numbers.now + length bytes.now ≤ 16384 },
}

fn entry_len(numbers: &[u16; LENT_WIDTH]) -> usize
    ensures { result ≡ lent_bytes numbers.now }
{
    let [_, _, _, _, aux_len] = *numbers;
    LENT_AUX_OFFSET + aux_len as usize
}

// Whether the entries' bytes are `len` in all. What is left of `len` falls with each entry, so that no sum grows beyond it.
#[tactic(auto, using(crate::proofs::Entries::needs))]
fn bytes_agree(entries: &[[u16; LENT_WIDTH]], len: usize) -> bool
    ensures { result ≡ eqb (bytes_needed entries.now) len }
{
    let mut left = len;
    for numbers in entries {
        let Some(behind) = left.checked_sub(entry_len(numbers)) else {
            return false;
        };
        left = behind;
    }
    left == 0
}

impl<'a> Iterator for LentEntries<'a> {
    ghost use Rattle.std.specs.Iterator.{YieldsFirstBy, item_count};
    ghost use Rattle.account_state_writer.specs.Lent.{entry_lent, entries_lent};

    type Item = LentEntry<'a>;

    ghost next_gives = { YieldsFirstBy entry_lent entries_lent };

    ghost remaining = { item_count entries_lent };

    #[tactic(auto, using(crate::proofs::Entries::firsts), unfolding(crate::specs::Entries::bytes_needed, crate::specs::Entries::entries_in, crate::specs::Lent::entry_lent, crate::specs::Lent::entries_lent, crate::specs::Writer::entry_from))]
    fn next(&mut self) -> Option<LentEntry<'a>> {
        let (numbers, others) = self.numbers.split_first()?;
        let (own, behind) = self.bytes.split_at(entry_len(numbers));
        self.numbers = others;
        self.bytes = behind;
        let [slot, algorithm_id, capabilities, weight, aux_len] = *numbers;
        Some(LentEntry {
            slot,
            algorithm_id,
            capabilities,
            weight,
            aux_len,
            bytes: own,
        })
    }
}

impl<'a> LentEntries<'a> {
    ghost use Rattle.account_state.specs.Reading.{entries_bytes};
    ghost use Rattle.account_state_writer.specs.Lent.{entries_lent, LentOf};

    // The entries that the slices say, where the slices agree and the state is not too long.
    #[tactic(auto, using(crate::proofs::Entries::chunks), unfolding(protocol::specs::Rows::decide, crate::specs::Writer::slice_rows, crate::specs::Writer::state_total, crate::specs::Slices::lent_count, crate::specs::Lent::entries_lent))]
    pub fn new(fields: &'a [u16], bytes: &'a [u8]) -> Result<LentEntries<'a>, ProtocolError>
        ensures { LentOf fields.now bytes.now result }
    {
        let disagree = ProtocolError::SlicesDisagree;
        let invalid = ProtocolError::InvalidState;
        let (numbers, behind) = fields.as_chunks::<LENT_WIDTH>();
        require(behind.is_empty(), disagree)?;
        require(bytes_agree(numbers, bytes.len()), disagree)?;
        require(numbers.len() <= 255, invalid)?;
        let before = ACCOUNT_STATE_HEADER_LEN + 14 * numbers.len();
        require(before + bytes.len() <= ACCOUNT_STATE_MAX_LEN, invalid)?;
        Ok(LentEntries { numbers, bytes })
    }

    #[tactic(auto, using(crate::proofs::Entries::chunks), unfolding(crate::specs::Lent::entries_lent))]
    pub fn entry_count(&self) -> u8
        ensures { result ≡ length (entries_lent self.now) }
    {
        self.numbers.len() as u8
    }

    // How long their state is: an entry takes 14 bytes more in it than here, its numbers.
    #[tactic(auto, using(crate::proofs::Entries::lengths))]
    pub fn state_len(&self) -> usize
        ensures { result ≡ 32 + length (entries_bytes (entries_lent self.now)) }
    {
        ACCOUNT_STATE_HEADER_LEN + 14 * self.numbers.len() + self.bytes.len()
    }
}

impl<'a> LentEntry<'a> {
    ghost use Rattle.account_state_writer.specs.Lent.{entry_lent};
    ghost use Rattle.account_state_writer.specs.Checks.{reading_fields};

    // The fields that its checks read.
    #[tactic(auto, using(crate::proofs::Entries::parts))]
    pub fn fields(&self) -> EntryFields
        ensures { result ≡ reading_fields (entry_lent self.now) }
    {
        EntryFields {
            algorithm_id: self.algorithm_id,
            capabilities: self.capabilities,
            weight: self.weight,
            verifier_hash_type: self.bytes[0],
            verifier_abi: self.bytes[1],
            key_len: 32,
            aux_len: self.aux_len,
        }
    }
}
