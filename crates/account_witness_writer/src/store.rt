// The stores of the header and of the proofs.
ghost use Rattle.std.specs.Prelude.{◌≡◌, ◌≤◌, length};
ghost use Rattle.std.proofs.lemmas.List.Edits.{sets};
ghost use Rattle.octets.specs.Layout.{layout_bytes};
ghost use Rattle.octets.specs.Lists.{sum};
ghost use Rattle.account_witness.specs.Fields.{witness_header_length};
ghost use Rattle.account_witness.specs.Header.{witness_header_fields};
ghost use Rattle.account_witness.specs.Reading.{proof_bytes, proofs_bytes};
ghost use Rattle.account_witness_writer.specs.Writer.{lent_proofs, witness_total};

use account_witness::{
    PROOF_COUNT_OFFSET, PROOF_HEADER_LEN, PROOF_LENGTH_OFFSET, PROOF_RESERVED_OFFSET,
    WITNESS_MAGIC_OFFSET, WITNESS_OPERATION_OFFSET, WITNESS_RESERVED_OFFSET,
    WITNESS_SEQUENCE_OFFSET, WITNESS_VERSION_OFFSET,
};
use octets::{store_bytes, store_number};
use protocol::{ACCOUNT_WITNESS_HEADER_LEN, ACCOUNT_WITNESS_MAGIC, ACCOUNT_WITNESS_VERSION};

#[tactic(auto, using(octets::proofs::LayoutLaws::layout_stored), unfolding(octets::proofs::LayoutLaws::store_numbers, account_witness::specs::Header::witness_header_fields))]
pub(crate) fn store_header(out: &mut [u8], operation: u8, count: usize, sequence: u64)
    ensures { out.new ≡ sets out.old 0 (layout_bytes (witness_header_fields operation count sequence)) }
{
    store_number(
        out,
        WITNESS_MAGIC_OFFSET,
        4,
        u64::from(ACCOUNT_WITNESS_MAGIC),
    );
    store_number(
        out,
        WITNESS_VERSION_OFFSET,
        1,
        u64::from(ACCOUNT_WITNESS_VERSION),
    );
    store_number(out, WITNESS_OPERATION_OFFSET, 1, u64::from(operation));
    store_number(out, PROOF_COUNT_OFFSET, 1, count as u64);
    store_number(out, WITNESS_RESERVED_OFFSET, 1, 0);
    store_number(out, WITNESS_SEQUENCE_OFFSET, 8, sequence);
}

#[tactic(auto, using(crate::proofs::WriterLaws::proof_stored))]
fn store_proof(out: &mut [u8], at: usize, slot: u16, proof: &[u8])
    requires { at ≤ 131072 }
    ensures { out.new ≡ sets out.old at (proof_bytes (record { slot = slot; bytes = proof.now })) }
{
    store_number(out, at, 2, u64::from(slot));
    store_number(out, at + PROOF_RESERVED_OFFSET, 2, 0);
    store_number(out, at + PROOF_LENGTH_OFFSET, 4, proof.len() as u64);
    store_bytes(out, at + PROOF_HEADER_LEN, proof);
}

// Stores the proofs behind the header.
#[tactic(auto, using(crate::proofs::WriterLaws::sum_turn, crate::proofs::WriterLaws::store_turn, crate::proofs::WriterLaws::store_end))]
pub(crate) fn store_proofs(out: &mut [u8], slots: &[u16], lengths: &[u32], bytes: &[u8])
    requires { (length slots.now ≡ length lengths.now) × (sum lengths.now ≡ length bytes.now) × (witness_total slots.now bytes.now ≤ 131072) }
    ensures { out.new ≡ sets out.old witness_header_length
        (proofs_bytes (lent_proofs slots.now lengths.now bytes.now)) }
{
    let mut at = ACCOUNT_WITNESS_HEADER_LEN;
    let mut rest = bytes;
    for (&slot, &length) in slots.iter().zip(lengths) {
        let (proof, behind) = rest.split_at(length as usize);
        store_proof(out, at, slot, proof);
        at += PROOF_HEADER_LEN + proof.len();
        rest = behind;
    }
}
