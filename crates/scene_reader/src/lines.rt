// Lines one by one.
ghost use Rattle.std.specs.Prelude.{◌≡◌, true, List, ℕ, ◌+◌, ◌≤◌, IfOk, Some, length};
ghost use Rattle.octets.specs.Zeroed.{zeroed};
ghost use Rattle.text.specs.Text.{pieces, comma, line_end};
ghost use Rattle.scene_line.specs.Kind.{rank, field_count, follows};
ghost use Rattle.protocol.specs.Limits.{scene_max_length, table_min_entries, kind_max_lines};
ghost use Rattle.scene_reader.specs.Reader.{lines_outcome, reader_start};
ghost use Rattle.scene_reader.specs.Room.{line_outcome_as, line_outcome, scene_end_outcome, ReaderReady, ReadyAfter, state_holding, step_outcome, LineChecked};

use crate::put::put_line;
use crate::state::{FIRST_RECORD_AT, State};
use protocol::{KIND_MAX_LINES, ProtocolError, require};
use scene_line::{Kind, check_fields, line_kind};
use text::{COMMA, LINE_END, split_once};

// How many bytes the fields of a line of this kind have, where no row refuses it with a store of room bytes.
#[tactic(auto, unfolding(protocol::specs::Rows::decide, crate::specs::Reader::line_rows, scene_line::specs::Line::fields_found))]
fn check_line(kind: Kind, fields: &[u8], state: State, room: usize) -> Result<usize, ProtocolError>
    requires { (state.seen ≤ kind_max_lines) × (state.used + length fields.now ≤ scene_max_length) }
    ensures value { LineChecked (Some kind) state (pieces comma fields.now) room result }
    ensures upper_bound { IfOk result (λ bytes. bytes ≤ length fields.now) }
{
    let seen = state.seen_with(kind);
    let found = check_fields(kind.first_form(), fields);
    require(seen <= KIND_MAX_LINES, ProtocolError::TooManyLines)?;
    let bytes = found.ok_or(ProtocolError::InvalidField)?;
    require(state.used + bytes <= room, ProtocolError::StoreTooShort)?;
    Ok(bytes)
}

// A line of this kind: its rows, and then it is put down.
fn read_as(
    kind: Kind,
    fields: &[u8],
    state: State,
    store: &mut [u8],
    table: &mut [u32],
) -> Result<State, ProtocolError>
    requires reader_ready { ReaderReady state (length fields.now) (length store.old) (length table.old) }
    requires fields_len { (length (pieces comma fields.now) ≡ field_count (Some kind)) × (follows (rank state.last) (rank (Some kind)) ≡ true) }
    ensures table_after { step_outcome result store.new table.new
        ≡ line_outcome_as (state_holding state store.old table.old) (Some kind) (pieces comma fields.now) }
    ensures ready_after { ReadyAfter state (length fields.now) (length store.old) (length table.old) result }
{
    let bytes = check_line(kind, fields, state, store.len())?;
    Ok(put_line(kind, fields, state, bytes, store, table))
}

// One line.
#[tactic(auto, unfolding(protocol::specs::Rows::decide, crate::specs::Reader::line_rows, crate::specs::Reader::rows_of_line, scene_line::specs::Kind::line_kind, scene_line::specs::Kind::line_fields))]
fn read_line(
    line: &[u8],
    state: State,
    store: &mut [u8],
    table: &mut [u32],
) -> Result<State, ProtocolError>
    requires { ReaderReady state (length line.now) (length store.old) (length table.old) }
    ensures table_after { step_outcome result store.new table.new
        ≡ line_outcome (state_holding state store.old table.old) line.now }
    ensures ready_after { ReadyAfter state (length line.now) (length store.old) (length table.old) result }
{
    let (word, fields) = split_once(line, COMMA).ok_or(ProtocolError::InvalidLine)?;
    let kind = line_kind(word, fields, state.last_rank()).ok_or(ProtocolError::InvalidLine)?;
    read_as(kind, fields, state, store, table)
}

// The end of a scene: what follows the last line's ending.
#[tactic(auto, unfolding(protocol::specs::Rows::decide, crate::specs::Reader::scene_end_rows))]
fn finish_at(state: State, rest: &[u8]) -> Result<State, ProtocolError>
    ensures { (store table : List ℕ) → step_outcome result store table ≡ scene_end_outcome (state_holding state store table) rest.now }
{
    require(rest.is_empty(), ProtocolError::InvalidLine)?;
    require(
        state.last == Some(Kind::Verdicts),
        ProtocolError::InvalidLine,
    )?;
    Ok(state)
}

// All lines, into a store and a table that are all zero.
pub(crate) fn read_lines(
    scene: &[u8],
    store: &mut [u8],
    table: &mut [u32],
) -> Result<State, ProtocolError>
    requires scene_len_bound { (length scene.now ≤ scene_max_length) × (table_min_entries ≤ length table.old) }
    requires store_value { (store.old ≡ zeroed store.old) × (table.old ≡ zeroed table.old) }
    ensures { step_outcome result store.new table.new
        ≡ lines_outcome (reader_start (length store.old) (length table.old)) (pieces line_end scene.now) }
{
    let mut rest = scene;
    let mut state = State {
        last: None,
        seen: 0,
        used: 0,
        filled: FIRST_RECORD_AT,
    };
    while let Some((line, after)) = split_once(rest, LINE_END) {
        state = read_line(line, state, store, table)?;
        rest = after;
    }
    finish_at(state, rest)
}
