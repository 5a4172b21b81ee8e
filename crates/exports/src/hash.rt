// CKB's hash.
ghost use Rattle.blake2b.specs.State.{ckb_hash};
ghost use Rattle.export_answers.specs.Stored.{StoresBytes};

use blake2b::ckb_hash;
use export_answers::store_hash;

// Stores CKB's hash of the data at the front of `out`.
#[tactic(auto, unfolding(export_answers::specs::Stored::answer_bytes))]
#[unsafe(no_mangle)]
pub extern "C" fn fowlcredenza_ckb_hash(data: &[u8], out: &mut [u8]) -> u32
    ensures { StoresBytes 0 (ckb_hash «data».now) out.old result out.new }
{
    store_hash(Ok(ckb_hash(data)), out)
}
