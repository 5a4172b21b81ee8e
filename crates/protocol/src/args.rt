// The lock's args: 0x01 and the account id.
ghost use Rattle.std.specs.Prelude.{◌≡◌, Ok};
ghost use Rattle.protocol.specs.Args.{args_version_of, account_of, args_rows, read_args, args_bytes};
ghost use Rattle.protocol.specs.Rows.{decide};

use crate::check::require;
use crate::constants::{ACCOUNT_LOCK_ARGS_LEN, ACCOUNT_LOCK_VERSION};
use crate::error::ProtocolError;
use octets::{part, store_bytes, u8_at};

// The version, and the place where the 32 bytes of the account id begin.
#[derive(Drop)]
pub struct AccountLockArgs {
    pub version: u8,
    pub account_id: usize,
}

// The first byte, zero where there is none.
fn args_version_of(args: &[u8]) -> u8
    ensures { result ≡ args_version_of args.now }
{
    u8_at(args, 0)
}

// The account id, as far as the args have it.
#[tactic(auto, unfolding(crate::specs::Args::account_of))]
pub fn account_of(args: &[u8]) -> &[u8]
    ensures { result.now ≡ account_of args.now }
{
    part(args, 1, 32)
}

#[tactic(auto, unfolding(crate::specs::Rows::decide, crate::specs::Args::args_rows))]
pub fn check_args(data: &[u8]) -> Result<(), ProtocolError>
    ensures { result ≡ decide (Ok tt) (args_rows «data».now) }
{
    require(
        data.len() == ACCOUNT_LOCK_ARGS_LEN,
        ProtocolError::InvalidArgs,
    )?;
    require(
        args_version_of(data) == ACCOUNT_LOCK_VERSION,
        ProtocolError::UnsupportedVersion,
    )
}

impl AccountLockArgs {
    // The version and the place of the account, or 20 or 32.
    #[tactic(auto, unfolding(crate::specs::Args::read_args))]
    pub fn parse(data: &[u8]) -> Result<AccountLockArgs, ProtocolError>
        ensures { result ≡ read_args «data».now }
    {
        check_args(data)?;
        Ok(AccountLockArgs {
            version: ACCOUNT_LOCK_VERSION,
            account_id: 1,
        })
    }
}

// The args of an account.
pub fn account_lock_args(account: [u8; 32]) -> [u8; ACCOUNT_LOCK_ARGS_LEN]
    ensures { result ≡ args_bytes account }
{
    let mut args = [ACCOUNT_LOCK_VERSION; ACCOUNT_LOCK_ARGS_LEN];
    store_bytes(&mut args, 1, &account);
    args
}
