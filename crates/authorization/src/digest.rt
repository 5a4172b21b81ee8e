// The digest that an authorization is over.
ghost use Rattle.std.specs.Prelude.{◌≡◌};
ghost use Rattle.blake2b.specs.State.{begun, fed_all, ckb_parameters};
ghost use Rattle.authorization.specs.Digest.{digest_head, digest_of, authorization_of};

use blake2b::{Blake2b, ckb_hash};
use protocol::{AUTH_DOMAIN, ProtocolError, is_operation, require};

// The domain, the operation, the account and the sequence are fed.
#[tactic(auto, using(crate::proofs::Feeding::head_fed), unfolding(crate::specs::Digest::auth_domain))]
fn feed_head(operation: u8, account: [u8; 32], sequence: u64) -> Blake2b
    ensures { result ≡ fed_all (begun ckb_parameters) (digest_head operation account sequence) }
{
    Blake2b::new()
        .update(&AUTH_DOMAIN)
        .update(&[operation])
        .update(&account)
        .update(&sequence.to_le_bytes())
}

// The digest of document 01's input, whatever the operation.
#[tactic(auto, using(crate::proofs::Feeding::digest_fed))]
pub fn digest_of(
    operation: u8,
    account: [u8; 32],
    sequence: u64,
    state: &[u8],
    sighash: [u8; 32],
) -> [u8; 32]
    ensures { result ≡ digest_of operation account sequence state.now sighash }
{
    feed_head(operation, account, sequence)
        .update(&ckb_hash(state))
        .update(&sighash)
        .finish()
        .digest()
}

// The digest of an operation on an account, or 37.
#[tactic(auto, unfolding(protocol::specs::Rows::decide, protocol::specs::Policy::operation_rows, crate::specs::Digest::authorization_of))]
pub fn authorization_digest(
    operation: u8,
    account: [u8; 32],
    sequence: u64,
    state: &[u8],
    sighash: [u8; 32],
) -> Result<[u8; 32], ProtocolError>
    ensures { result ≡ authorization_of operation account sequence state.now sighash }
{
    require(is_operation(operation), ProtocolError::InvalidOperation)?;
    Ok(digest_of(operation, account, sequence, state, sighash))
}
