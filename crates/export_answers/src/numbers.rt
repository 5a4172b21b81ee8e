// The answer of a writer.
ghost use Rattle.std.specs.Prelude.{◌≡◌};
ghost use Rattle.protocol.specs.Rows.{check_number};
ghost use Rattle.export_answers.specs.Stored.{length_after};

use protocol::{ProtocolError, error_number};

// A writer's number; the length that it wrote goes to `len`.
#[tactic(auto, unfolding(crate::specs::Stored::length_after))]
pub fn written(answer: Result<usize, ProtocolError>, len: &mut usize) -> u32
    ensures value { result ≡ check_number answer }
    ensures len_after { len.new ≡ length_after answer len.old }
{
    match answer {
        Err(error) => error_number(error) as u32,
        Ok(n) => {
            *len = n;
            0
        }
    }
}
