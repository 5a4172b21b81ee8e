// Where the account's state stands in a transaction.
ghost use Rattle.std.specs.Prelude.{◌≡◌, Ok};
ghost use Rattle.protocol.specs.Rows.{decide};
ghost use Rattle.scene_table.specs.Slices.{scene_of};
ghost use Rattle.state_transition.specs.Branches.{states_in, one_state, spend_of, change_of};
ghost use Rattle.state_transition.specs.Resolve.{type_rows, resolved_of, state_source, current_at, successor_at, since_at};

use cell_search::{CellField, Search, Source, cell_content, cell_type_script, search_cells};
use octets::same_bytes;
use protocol::{OP_SPEND, ProtocolError, is_operation, require};
use scene_table::{LentSlices, input_count, input_since};

// The indices of the two cells: the current state's among the deps where it is spent from, else among the inputs, and its
// successor's among the outputs.
#[derive(Clone, Copy)]
pub struct ResolvedState {
    pub current: u32,
    pub successor: u32,
}

const MAX_TYPE_SCRIPT: usize = 512;

#[tactic(auto, unfolding(protocol::specs::Rows::decide, crate::specs::Resolve::type_rows))]
fn check_types(input: &[u8], output: &[u8]) -> Result<(), ProtocolError>
    ensures { result ≡ decide (Ok tt) (type_rows input.now output.now) }
{
    require(input.len() <= MAX_TYPE_SCRIPT, ProtocolError::InvalidState)?;
    require(output.len() <= MAX_TYPE_SCRIPT, ProtocolError::InvalidState)?;
    require(same_bytes(input, output), ProtocolError::InvalidTransition)
}

// Which cells of a list hold the state.
#[tactic(auto, unfolding(crate::specs::Branches::states_in))]
fn find_states(scene: &LentSlices, source: Source, account_id: &[u8]) -> Search
    ensures { result ≡ states_in source account_id.now (scene_of scene.now) }
{
    search_cells(scene, source, CellField::TypeHash, account_id)
}

// The index of the one cell of a list that holds the state.
#[tactic(auto, using(crate::proofs::ResolveLaws::searches), unfolding(protocol::specs::Rows::decide, crate::specs::Branches::one_state))]
fn find_state(scene: &LentSlices, source: Source, account_id: &[u8]) -> Result<u32, ProtocolError>
    ensures { result ≡ one_state source account_id.now (scene_of scene.now) }
{
    match find_states(scene, source, account_id) {
        Search::One(index) => Ok(index),
        Search::Missing => Err(ProtocolError::StateNotFound),
        Search::Several => Err(ProtocolError::DuplicateState),
    }
}

// A spend reads the state from a dep.
#[tactic(auto, using(crate::proofs::ResolveLaws::searches), unfolding(protocol::specs::Rows::decide, crate::specs::Branches::one_state, crate::specs::Branches::spend_of, crate::specs::Resolve::spend_rows))]
fn resolve_spend(scene: &LentSlices, account_id: &[u8]) -> Result<ResolvedState, ProtocolError>
    ensures { result ≡ spend_of account_id.now (scene_of scene.now) }
{
    let inputs = find_states(scene, Source::Input, account_id);
    require(inputs.is_missing(), ProtocolError::StateConsumedOnSpend)?;
    let current = find_state(scene, Source::CellDep, account_id)?;
    Ok(ResolvedState {
        current,
        successor: 0,
    })
}

// A rotation or a recovery consumes the state and leaves its successor.
#[tactic(auto, using(crate::proofs::ResolveLaws::searches), unfolding(protocol::specs::Rows::decide, crate::specs::Branches::one_state, crate::specs::Branches::change_of, crate::specs::Resolve::change_rows, crate::specs::Resolve::state_cell))]
fn resolve_change(scene: &LentSlices, account_id: &[u8]) -> Result<ResolvedState, ProtocolError>
    ensures { result ≡ change_of account_id.now (scene_of scene.now) }
{
    let current = find_state(scene, Source::Input, account_id)?;
    let Search::One(successor) = find_states(scene, Source::Output, account_id) else {
        return Err(ProtocolError::InvalidTransition);
    };
    check_types(
        cell_type_script(scene, Source::Input, current),
        cell_type_script(scene, Source::Output, successor),
    )?;
    Ok(ResolvedState { current, successor })
}

// Where the two cells stand, or what the rows find, 37 before all else for an operation outside 1 to 3.
#[tactic(auto, using(protocol::proofs::AllPass::deciding), unfolding(protocol::specs::Rows::decide, protocol::specs::Policy::operation_rows, crate::specs::Resolve::resolved_of, crate::specs::Resolve::resolve_rows, crate::specs::Resolve::state_source, crate::specs::Branches::spend_of, crate::specs::Branches::change_of))]
pub fn resolve_state(
    scene: &LentSlices,
    operation: u8,
    account_id: &[u8],
) -> Result<ResolvedState, ProtocolError>
    ensures { result ≡ resolved_of operation account_id.now (scene_of scene.now) }
{
    require(is_operation(operation), ProtocolError::InvalidOperation)?;
    if operation == OP_SPEND {
        resolve_spend(scene, account_id)
    } else {
        resolve_change(scene, account_id)
    }
}

// The list whose cell holds the current state.
#[tactic(auto, unfolding(crate::specs::Resolve::state_source))]
fn state_source(operation: u8) -> Source
    ensures { result ≡ state_source operation }
{
    if operation == OP_SPEND {
        Source::CellDep
    } else {
        Source::Input
    }
}

// The data of the cell at an index that holds the current state.
pub fn current_state<'s>(scene: &LentSlices<'_, 's>, operation: u8, index: u32) -> &'s [u8]
    ensures { result.now ≡ current_at operation index (scene_of scene.now) }
{
    cell_content(scene, state_source(operation), index)
}

// The data of the output at an index, nothing where the state is spent from and has no successor.
pub fn successor_state<'s>(scene: &LentSlices<'_, 's>, operation: u8, index: u32) -> &'s [u8]
    ensures { result.now ≡ successor_at operation index (scene_of scene.now) }
{
    if operation == OP_SPEND {
        &[]
    } else {
        cell_content(scene, Source::Output, index)
    }
}

// The since of the input at an index.
#[tactic(auto, using(crate::proofs::ResolveLaws::sinces))]
pub fn state_since(scene: &LentSlices, index: u32) -> u64
    ensures { result ≡ since_at index (scene_of scene.now) }
{
    if index < input_count(scene.table) {
        input_since(scene.table, index)
    } else {
        0
    }
}
