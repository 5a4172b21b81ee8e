// The witness lock.
ghost use Rattle.account_witness.specs.Header.{read_witness_header};
ghost use Rattle.account_witness.specs.Walk.{proof_step};
ghost use Rattle.account_witness.specs.Witness.{read_witness};
ghost use Rattle.export_answers.specs.Words.{word_bytes};
ghost use Rattle.export_answers.specs.Stored.{StoresBytes};
ghost use Rattle.exports.specs.Readers.{StoresWords, proof_step_words, witness_words};
ghost use Rattle.exports.specs.Writers.{WritesWitness};

use account_witness::{
    AccountWitnessHeader, ProofCursor, next_proof, parse_witness_header, validate_witness,
};
use account_witness_writer::encode_witness;
use export_answers::{store_words, written};
use protocol::error_number;

// The words of a header.
#[tactic(auto, unfolding(crate::specs::Readers::witness_words))]
fn store_witness_header(header: AccountWitnessHeader, out: &mut [u8]) -> u32
    ensures { StoresBytes 0 (word_bytes (witness_words header)) out.old result out.new }
{
    let words = [
        header.operation as u64,
        header.proof_count as u64,
        header.state_sequence,
    ];
    store_words(&words, out)
}

// Stores operation, proof count and sequence.
#[tactic(auto, unfolding(export_answers::specs::Stored::answer_bytes, crate::specs::Readers::witness_words))]
#[unsafe(no_mangle)]
pub extern "C" fn fowlcredenza_parse_witness_header(witness: &[u8], out: &mut [u8]) -> u32
    ensures { StoresWords witness_words (read_witness_header witness.now) out.old result out.new }
{
    match parse_witness_header(witness) {
        Err(error) => error_number(error) as u32,
        Ok(header) => store_witness_header(header, out),
    }
}

// Stores slot, place and length of the proof's bytes, and offset and least slot of the next proof.
#[tactic(auto, unfolding(export_answers::specs::Stored::answer_bytes, crate::specs::Readers::proof_step_words))]
#[unsafe(no_mangle)]
pub extern "C" fn fowlcredenza_next_proof(
    witness: &[u8],
    offset: usize,
    least: u32,
    out: &mut [u8],
) -> u32
    ensures { StoresWords proof_step_words (proof_step witness.now (record { offset = offset; least = least })) out.old result out.new }
{
    match next_proof(witness, ProofCursor { offset, least }) {
        Err(error) => error_number(error) as u32,
        Ok((proof, next)) => {
            let words = [
                proof.slot as u64,
                proof.start as u64,
                proof.len as u64,
                next.offset as u64,
                next.least as u64,
            ];
            store_words(&words, out)
        }
    }
}

// Stores operation, proof count and sequence of a witness lock whose every proof passes.
#[tactic(auto, unfolding(export_answers::specs::Stored::answer_bytes, crate::specs::Readers::witness_words))]
#[unsafe(no_mangle)]
pub extern "C" fn fowlcredenza_validate_witness(witness: &[u8], out: &mut [u8]) -> u32
    ensures { StoresWords witness_words (read_witness witness.now) out.old result out.new }
{
    match validate_witness(witness) {
        Err(error) => error_number(error) as u32,
        Ok(header) => store_witness_header(header, out),
    }
}

// Writes a witness lock. Proof i has the slot slots[i] and the next lengths[i] bytes of `bytes`.
#[unsafe(no_mangle)]
pub extern "C" fn fowlcredenza_encode_witness(
    operation: u8,
    sequence: u64,
    slots: &[u16],
    lengths: &[u32],
    bytes: &[u8],
    out: &mut [u8],
    len: &mut usize,
) -> u32
    ensures { WritesWitness operation sequence slots.now lengths.now bytes.now
        out.old len.old result out.new len.new }
{
    written(
        encode_witness(operation, sequence, slots, lengths, bytes, out),
        len,
    )
}
