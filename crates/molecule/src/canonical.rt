// The canonical witness: the lock field empty, the other two as they are.
ghost use Rattle.std.specs.Prelude.{◌≡◌, take};
ghost use Rattle.octets.specs.Layout.{layout_bytes};
ghost use Rattle.molecule.specs.Canonical.{canonical_of, canonical_head, canonical_written, canonical_stored};

use crate::fields::{second_field, second_offset_of, third_field};
use crate::table::check_table;
use octets::{fits, rest, store_bytes, store_number};
use protocol::{ProtocolError, require};

// The total, the three offsets, and the length of the empty lock.
#[tactic(auto, using(octets::proofs::LayoutLaws::layout_filled), unfolding(octets::proofs::LayoutLaws::store_numbers, crate::specs::Canonical::canonical_head))]
fn head_bytes(total: u64, third: u64) -> [u8; 20]
    ensures { result ≡ layout_bytes (canonical_head total third) }
{
    let mut head = [0u8; 20];
    store_number(&mut head, 0, 4, total);
    store_number(&mut head, 4, 4, 16);
    store_number(&mut head, 8, 4, 20);
    store_number(&mut head, 12, 4, third);
    store_number(&mut head, 16, 4, 0);
    head
}

// The canonical witness's first 20 bytes; fields 2 and 3 follow them.
#[tactic(auto, using(crate::proofs::CanonicalForm::canonical_first, crate::proofs::CanonicalForm::fields_within))]
pub fn canonical_head(witness: &[u8]) -> [u8; 20]
    ensures { result ≡ take 20 (canonical_of witness.now) }
{
    let third = 20 + second_field(witness).len() as u64;
    head_bytes(third + third_field(witness).len() as u64, third)
}

// Writes the canonical witness to the front of `out` and answers its length. A refused writer writes nothing.
#[tactic(auto, using(crate::proofs::CanonicalForm::room_found, crate::proofs::CanonicalForm::size_written, crate::proofs::CanonicalForm::parts_written), unfolding(crate::specs::Canonical::canonical_written, crate::specs::Canonical::canonical_stored, protocol::specs::Write::write_answer, protocol::specs::Write::after_write))]
pub fn canonical_witness(witness: &[u8], out: &mut [u8]) -> Result<usize, ProtocolError>
    ensures value { result ≡ canonical_written witness.now out.old }
    ensures out_after { out.new ≡ canonical_stored witness.now out.old }
{
    check_table(witness, ProtocolError::InvalidWitness)?;
    let copied = rest(witness, second_offset_of(witness) as usize);
    require(
        fits(out.len(), 20, copied.len()),
        ProtocolError::BufferTooShort,
    )?;
    store_bytes(out, 0, &canonical_head(witness));
    store_bytes(out, 20, copied);
    Ok(20 + copied.len())
}
