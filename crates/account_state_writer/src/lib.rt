// The writer of account states, from lent slices of numbers and bytes. The state is written only where no check refuses it.
#![tactic(auto)]

mod slices; // slices.rt
mod check; // check.rt
mod layout; // layout.rt

ghost use Rattle.std.specs.Prelude.{◌≡◌, ◌+◌, length, Ok};
ghost use Rattle.protocol.specs.Rows.{◌then◌};
ghost use Rattle.protocol.specs.Write.{after_write};
ghost use Rattle.account_state.specs.Reading.{entries_bytes, state_bytes};
ghost use Rattle.account_state_writer.specs.Lent.{entries_lent, state_lent, found};
ghost use Rattle.account_state_writer.specs.Writer.{state_from, state_written, state_stored};

use self::check::check_state;
use self::layout::store_state;
use self::slices::LentEntries;
use account_state::StateHeader;
use protocol::{ProtocolError, require};

// The state of the header and the entries, where no check refuses it and there is room.
#[tactic(auto, using(crate::proofs::Agreed::writing), unfolding(crate::specs::Lent::found, protocol::specs::Write::after_write))]
fn write_state(
    header: &StateHeader,
    entries: LentEntries,
    out: &mut [u8],
) -> Result<usize, ProtocolError>
    requires { header.now.authenticator_count ≡ length (entries_lent entries) }
    ensures value { result ≡ found header.now (entries_lent entries.entry) (length out.old)
        then Ok (32 + length (entries_bytes (entries_lent entries.entry))) }
    ensures out_after { out.new ≡ after_write
        (found header.now (entries_lent entries.entry) (length out.old))
        (state_bytes (state_lent header.now (entries_lent entries.entry)))
        out.old }
{
    check_state(header, entries)?;
    let total = entries.state_len();
    require(total <= out.len(), ProtocolError::BufferTooShort)?;
    store_state(out, header, entries);
    Ok(total)
}

// Writes the state to the front of `out` and answers its length. A refused writer writes nothing.
pub fn encode_state(
    flags: u8,
    sequence: u64,
    spend: u16,
    rotate: u16,
    recovery: u16,
    since: u64,
    fields: &[u16],
    bytes: &[u8],
    out: &mut [u8],
) -> Result<usize, ProtocolError>
    ensures value { result ≡ state_written
        (state_from flags sequence spend rotate recovery since fields.now bytes.now)
        fields.now bytes.now out.old }
    ensures out_after { out.new ≡ state_stored
        (state_from flags sequence spend rotate recovery since fields.now bytes.now)
        fields.now bytes.now out.old }
{
    let entries = LentEntries::new(fields, bytes)?;
    let header = StateHeader {
        flags,
        sequence,
        spend_threshold: spend,
        rotate_threshold: rotate,
        recovery_threshold: recovery,
        authenticator_count: entries.entry_count(),
        recovery_since: since,
    };
    write_state(&header, entries, out)
}
