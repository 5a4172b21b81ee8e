// The digest that an authorization is over, and the sighash.
ghost use Rattle.std.specs.Prelude.{◌≡◌};
ghost use Rattle.exports_transaction.specs.Answers.{lent_digest, lent_sighash};
ghost use Rattle.export_answers.specs.Stored.{StoresHash};

use authorization::authorization_digest;
use export_answers::{check_sizes, store_hash};
use group_sighash::canonical_group_sighash;
use octets::array_32;
use protocol::{ProtocolError, require};
use scene_table::{LentSlices, table_valid};

// The digest over an account and a sighash that are lent as slices. One of another length than 32 is 7.
#[tactic(auto, unfolding(protocol::specs::Rows::decide, protocol::specs::Policy::operation_rows, authorization::specs::Digest::authorization_of, crate::specs::Answers::lent_digest))]
fn digest_lent(
    operation: u8,
    account: &[u8],
    sequence: u64,
    state: &[u8],
    sighash: &[u8],
) -> Result<[u8; 32], ProtocolError>
    ensures { result ≡ lent_digest operation account.now sequence state.now sighash.now }
{
    check_sizes(account, sighash)?;
    authorization_digest(
        operation,
        array_32(account),
        sequence,
        state,
        array_32(sighash),
    )
}

// Stores the digest of an operation on an account.
#[unsafe(no_mangle)]
pub extern "C" fn fowlcredenza_authorization_digest(
    operation: u8,
    account: &[u8],
    sequence: u64,
    state: &[u8],
    sighash: &[u8],
    out: &mut [u8],
) -> u32
    ensures { StoresHash (lent_digest operation account.now sequence state.now sighash.now)
        out.old result out.new }
{
    store_hash(
        digest_lent(operation, account, sequence, state, sighash),
        out,
    )
}

// The sighash of the transaction that table and store hold. A table that no scene, its length aside, leaves with a store this long is 7.
#[tactic(auto, unfolding(crate::specs::Answers::lent_sighash))]
fn sighash_lent(table: &[u32], store: &[u8]) -> Result<[u8; 32], ProtocolError>
    ensures { result ≡ lent_sighash table.now store.now }
{
    require(
        table_valid(table, store.len()),
        ProtocolError::SlicesDisagree,
    )?;
    canonical_group_sighash(&LentSlices { table, store })
}

// Stores the sighash of the transaction that table and store hold.
#[unsafe(no_mangle)]
pub extern "C" fn fowlcredenza_canonical_group_sighash(
    table: &[u32],
    store: &[u8],
    out: &mut [u8],
) -> u32
    ensures { StoresHash (lent_sighash table.now store.now) out.old result out.new }
{
    store_hash(sighash_lent(table, store), out)
}
