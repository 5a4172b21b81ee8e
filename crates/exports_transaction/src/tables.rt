// Molecule tables: the lock of a witness, the args of a script, the canonical witness.
ghost use Rattle.molecule.specs.Bytes.{read_witness_lock, read_script_args};
ghost use Rattle.exports_transaction.specs.Answers.{StoresPlace, WritesCanonical};

use export_answers::{store_words, written};
use molecule::{canonical_witness, script_args, witness_lock};
use octets::Place;
use protocol::{ProtocolError, error_number};

// A place's number; its start and length are stored.
#[tactic(auto, unfolding(export_answers::specs::Stored::answer_bytes, crate::specs::Answers::place_words))]
fn place_stored(answer: Result<Place, ProtocolError>, out: &mut [u8]) -> u32
    ensures { StoresPlace answer out.old result out.new }
{
    match answer {
        Err(error) => error_number(error) as u32,
        Ok(place) => {
            let words = [place.start as u64, place.len as u64];
            store_words(&words, out)
        }
    }
}

// Stores place and length of the lock's bytes.
#[unsafe(no_mangle)]
pub extern "C" fn fowlcredenza_witness_lock(witness: &[u8], out: &mut [u8]) -> u32
    ensures { StoresPlace (read_witness_lock witness.now) out.old result out.new }
{
    place_stored(witness_lock(witness), out)
}

// Stores place and length of the args' bytes.
#[unsafe(no_mangle)]
pub extern "C" fn fowlcredenza_script_args(script: &[u8], out: &mut [u8]) -> u32
    ensures { StoresPlace (read_script_args script.now) out.old result out.new }
{
    place_stored(script_args(script), out)
}

// Writes the canonical witness.
#[unsafe(no_mangle)]
pub extern "C" fn fowlcredenza_canonical_witness(
    witness: &[u8],
    out: &mut [u8],
    len: &mut usize,
) -> u32
    ensures { WritesCanonical witness.now out.old len.old result out.new len.new }
{
    written(canonical_witness(witness, out), len)
}
