// Slices that are lent for 32 bytes.
ghost use Rattle.std.specs.Prelude.{◌≡◌};
ghost use Rattle.export_answers.specs.Lent.{sizes_fault};

use protocol::{ProtocolError, require};

// Both slices have 32 bytes, or 7.
#[tactic(auto, unfolding(protocol::specs::Rows::decide, crate::specs::Lent::sizes_fault))]
pub fn check_sizes(a: &[u8], b: &[u8]) -> Result<(), ProtocolError>
    ensures { result ≡ sizes_fault a.now b.now }
{
    let disagree = ProtocolError::SlicesDisagree;
    require(a.len() == 32, disagree)?;
    require(b.len() == 32, disagree)
}
