// Whether the inputs' capacity covers the outputs', and the fee.
ghost use Rattle.std.specs.Prelude.{◌≡◌};
ghost use Rattle.scene_table.specs.Slices.{scene_of};
ghost use Rattle.capacity.specs.Capacity.{fee_where, fee_of};

use crate::total::{Side, total_of};
use protocol::{ProtocolError, require};
use scene_table::LentSlices;

// The fee where all checks passed, else 0.
pub fn fee_where(found: Result<(), ProtocolError>, fee: u64) -> u64
    ensures { result ≡ fee_where found fee }
{
    match found {
        Err(_) => 0,
        Ok(()) => fee,
    }
}

// The inputs' total less the outputs': 39 where a total is above what a u64 holds, 48 where the outputs exceed the inputs.
#[tactic(auto, unfolding(crate::specs::Capacity::fee_of, crate::specs::Capacity::fee_for, crate::specs::Capacity::total_rows, crate::specs::Totals::total_of, protocol::specs::Rows::decide))]
pub fn check_totals(scene: &LentSlices) -> Result<u64, ProtocolError>
    ensures { result ≡ fee_of (scene_of scene.now) }
{
    let inputs = total_of(scene, Side::Inputs).ok_or(ProtocolError::LengthOverflow)?;
    let outputs = total_of(scene, Side::Outputs).ok_or(ProtocolError::LengthOverflow)?;
    require(outputs <= inputs, ProtocolError::OutputsExceedInputs)?;
    Ok(inputs - outputs)
}
