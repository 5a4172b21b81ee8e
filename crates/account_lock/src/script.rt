// The lock's own script, whose args name the account.
ghost use Rattle.std.specs.Prelude.{◌≡◌, Ok};
ghost use Rattle.protocol.specs.Rows.{decide};
ghost use Rattle.account_lock.specs.Lock.{script_rows};

use molecule::{args_of, check_script_args};
use protocol::{ProtocolError, check_args, require};

const MAX_SCRIPT: usize = 512;

#[tactic(auto, using(protocol::proofs::AllPass::deciding, crate::proofs::LockLaws::args_found), unfolding(protocol::specs::Rows::decide, crate::specs::Lock::script_rows))]
pub(crate) fn check_script(script: &[u8]) -> Result<(), ProtocolError>
    ensures { result ≡ decide (Ok tt) (script_rows script.now) }
{
    require(script.len() <= MAX_SCRIPT, ProtocolError::InvalidArgs)?;
    check_script_args(script)?;
    check_args(args_of(script))
}
