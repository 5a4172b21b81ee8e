// Checks in order: the first that fails decides.
ghost use Rattle.std.specs.Prelude.{◌≡◌, Ok};
ghost use Rattle.protocol.specs.Rows.{◌▷◌, row, check_number};

use crate::error::{ProtocolError, error_number};

// One check: its refusal where the test fails. A list of checks is a `require(..)?` for each.
#[tactic(auto, unfolding(crate::specs::Rows::decide))]
pub fn require(ok: bool, error: ProtocolError) -> Result<(), ProtocolError>
    ensures { result ≡ Ok tt ▷ row ok error }
{
    if ok { Ok(()) } else { Err(error) }
}

// Document 01's number of an answer: that of its refusal, 0 where there is none.
pub fn check_number<T: Drop>(answer: Result<T, ProtocolError>) -> u8
    ensures { result ≡ check_number answer }
{
    match answer {
        Err(error) => error_number(error),
        Ok(_) => 0,
    }
}
