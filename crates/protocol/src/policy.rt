// Which algorithms are supported, and which capability an operation needs.
ghost use Rattle.std.specs.Prelude.{◌≡◌};
ghost use Rattle.protocol.specs.Policy.{is_supported_algorithm, is_operation, capability_for};

use crate::constants::{
    ALG_MLDSA44, ALG_MLDSA65, ALG_MLDSA87, ALG_P256_WEBAUTHN, ALG_SLHDSA, CAP_RECOVERY, CAP_ROTATE,
    CAP_SPEND, OP_RECOVERY, OP_ROTATE, OP_SPEND,
};
use crate::error::ProtocolError;

// Whether the lock knows the algorithm of an entry.
#[tactic(auto, unfolding(crate::specs::Policy::is_supported_algorithm))]
pub fn is_supported_algorithm(algorithm: u16) -> bool
    ensures { result ≡ is_supported_algorithm algorithm }
{
    matches!(
        algorithm,
        ALG_P256_WEBAUTHN | ALG_MLDSA44 | ALG_MLDSA65 | ALG_MLDSA87 | ALG_SLHDSA
    )
}

// The capability that a proof of this operation needs.
#[tactic(auto, unfolding(crate::specs::Policy::capability_for))]
pub fn capability_for_operation(operation: u8) -> Result<u16, ProtocolError>
    ensures { result ≡ capability_for operation }
{
    match operation {
        OP_SPEND => Ok(CAP_SPEND),
        OP_ROTATE => Ok(CAP_ROTATE),
        OP_RECOVERY => Ok(CAP_RECOVERY),
        _ => Err(ProtocolError::InvalidOperation),
    }
}

// Whether the number names an operation.
#[tactic(auto, unfolding(crate::specs::Policy::is_operation))]
pub fn is_operation(operation: u8) -> bool
    ensures { result ≡ is_operation operation }
{
    matches!(operation, OP_SPEND | OP_ROTATE | OP_RECOVERY)
}
