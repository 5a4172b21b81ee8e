// What an operation asks for: a capability of each slot, and a weight of all.
ghost use Rattle.std.specs.Prelude.{◌≡◌};
ghost use Rattle.quorum.specs.Operation.{capable, threshold_of};

use account_state::{recovery_threshold_of, rotate_threshold_of, spend_threshold_of};
use protocol::{OP_ROTATE, OP_SPEND, capability_for_operation};

// Whether the capabilities have the bit that the operation needs.
#[tactic(auto, using(crate::proofs::OperationLaws::bits), unfolding(protocol::specs::Policy::has_capability, crate::specs::Operation::has_bit, crate::specs::Operation::capable))]
pub fn is_capable(operation: u8, capabilities: u16) -> bool
    ensures { result ≡ capable operation capabilities }
{
    match capability_for_operation(operation) {
        Ok(bit) => capabilities / bit % 2 == 1,
        Err(_) => false,
    }
}

// The operation's threshold.
#[tactic(auto, unfolding(crate::specs::Operation::threshold_of))]
pub fn threshold_of(state: &[u8], operation: u8) -> u16
    ensures { result ≡ threshold_of operation state.now }
{
    match operation {
        OP_SPEND => spend_threshold_of(state),
        OP_ROTATE => rotate_threshold_of(state),
        _ => recovery_threshold_of(state),
    }
}
