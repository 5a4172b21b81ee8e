// Whether a scene, its length aside, leaves a table: a walk over its records.
ghost use Rattle.std.specs.Prelude.{◌≡◌, ◌≤◌, ◌<◌, ◌^◌, Some, ltb, eqb, drop};
ghost use Rattle.octets.specs.Lists.{every};
ghost use Rattle.scene_table.specs.Lent.{table_entry, records_at};
ghost use Rattle.scene_table.specs.Valid.{valid_table};
ghost use Rattle.scene_table.specs.RecordsWalk.{with_record, cell_size, record_step, walk_records, any_record, group_ok, bytes_size, cell_record_size, input_size, record_ok, record_size, record_width, counts_ok, walk_lines, rest_ok};

use crate::entries::{
    BYTES_LENGTH, BYTES_WIDTH, CELL_DATA_LENGTH, CELL_SCRIPT_LENGTH, CELL_WIDTH, DIGITS,
    INPUT_DATA_LENGTH, INPUT_GROUP, INPUT_SCRIPT_LENGTH, INPUT_WIDTH, INPUTS_AT, NO_KIND_AT,
    OUTPUT_WIDTH, SCRIPT_AT, SCRIPT_COUNT_AT, TRANSACTION_AT, TRANSACTION_COUNT_AT,
    VERDICTS_COUNT_AT,
};
use crate::places::{
    dep_count, deps_at, digit_count, hash_length, input_count, output_count, outputs_at,
    table_entry, verdicts_at, witness_count, witnesses_at,
};
use protocol::{DIGITS_MAX_COUNT, KIND_MAX_LINES, TABLE_MIN_ENTRIES};

// What a record is of: bytes, a dep, an output, an input.
#[derive(Clone, Copy)]
pub(crate) enum RecordForm {
    Bytes,
    Cell,
    Output,
    Input,
}

// How many bytes a cell has.
#[tactic(auto, unfolding(crate::specs::RecordsWalk::cell_size))]
fn cell_size(script: u32, content: u32) -> u64
    ensures value { result ≡ cell_size script content }
    ensures upper_bound { result < 2 ^ 40 }
{
    hash_length(script) as u64 + 32 + u64::from(script) + u64::from(content)
}

// Where the bytes of a record end, none where they do not begin at `used`, where those of the record before it end.
#[tactic(auto, unfolding(crate::specs::RecordsWalk::with_record))]
fn next_record(used: u64, start: u32, size: u64) -> Option<u64>
    requires { size < 2 ^ 40 }
    ensures { result ≡ with_record (Some used) start size }
{
    let start = u64::from(start);
    (start == used).then_some(start + size)
}

#[tactic(auto, unfolding(crate::specs::RecordsWalk::record_step, crate::specs::RecordsWalk::required, crate::specs::RecordsWalk::any_record, crate::specs::RecordsWalk::bytes_size))]
fn bytes_record(table: &[u32], at: usize, used: u64) -> Option<u64>
    requires { at < 2 ^ 40 }
    ensures { result ≡ record_step table.now any_record (bytes_size table.now) (Some used) at }
{
    next_record(
        used,
        table_entry(table, at),
        u64::from(table_entry(table, at + BYTES_LENGTH)),
    )
}

#[tactic(auto, unfolding(crate::specs::RecordsWalk::record_step, crate::specs::RecordsWalk::required, crate::specs::RecordsWalk::any_record, crate::specs::RecordsWalk::cell_record_size))]
fn cell_record(table: &[u32], at: usize, used: u64) -> Option<u64>
    requires { at < 2 ^ 40 }
    ensures { result ≡ record_step table.now any_record (cell_record_size table.now) (Some used) at }
{
    let size = cell_size(
        table_entry(table, at + CELL_SCRIPT_LENGTH),
        table_entry(table, at + CELL_DATA_LENGTH),
    );
    next_record(used, table_entry(table, at), size)
}

#[tactic(auto, unfolding(crate::specs::RecordsWalk::record_step, crate::specs::RecordsWalk::required, crate::specs::RecordsWalk::with_record, crate::specs::RecordsWalk::group_ok, crate::specs::RecordsWalk::input_size))]
fn input_record(table: &[u32], at: usize, used: u64) -> Option<u64>
    requires { at < 2 ^ 40 }
    ensures { result ≡ record_step table.now (group_ok table.now) (input_size table.now) (Some used) at }
{
    if 1 < table_entry(table, at + INPUT_GROUP) {
        return None;
    }
    let size = cell_size(
        table_entry(table, at + INPUT_SCRIPT_LENGTH),
        table_entry(table, at + INPUT_DATA_LENGTH),
    );
    next_record(used, table_entry(table, at), size)
}

impl RecordForm {
    // How many entries a record of this form has.
    fn width(self) -> usize
        ensures value { result ≡ record_width self }
        ensures upper_bound { result ≤ 8 }
    {
        match self {
            RecordForm::Bytes => BYTES_WIDTH,
            RecordForm::Cell => CELL_WIDTH,
            RecordForm::Output => OUTPUT_WIDTH,
            RecordForm::Input => INPUT_WIDTH,
        }
    }

    // Where the bytes of the record at `at` end, none where it is not good.
    fn record(self, table: &[u32], at: usize, used: u64) -> Option<u64>
        requires { at < 2 ^ 40 }
        ensures { result ≡ record_step table.now (record_ok table.now self) (record_size table.now self) (Some used) at }
    {
        match self {
            RecordForm::Bytes => bytes_record(table, at, used),
            RecordForm::Cell | RecordForm::Output => cell_record(table, at, used),
            RecordForm::Input => input_record(table, at, used),
        }
    }
}

// `n` records of a form, from `first` on.
#[tactic(auto, using(crate::proofs::WalkLaws::walk_turns))]
fn walk_records(table: &[u32], form: RecordForm, first: usize, n: u32, used: u64) -> Option<u64>
    requires { first < 2 ^ 38 }
    ensures { result
        ≡ walk_records table.now (record_ok table.now form) (record_size table.now form) (record_width form) n first (Some used) }
{
    let mut end = used;
    for i in 0..n as usize {
        end = form.record(table, first + form.width() * i, end)?;
    }
    Some(end)
}

// All lines of the scene.
#[tactic(auto, unfolding(crate::specs::RecordsWalk::walk_lines, crate::specs::RecordsWalk::walk_witnesses, crate::specs::RecordsWalk::walk_deps, crate::specs::RecordsWalk::walk_outputs, crate::specs::RecordsWalk::walk_inputs, crate::specs::RecordsWalk::walk_head, crate::specs::RecordsWalk::records_start, crate::specs::RecordsWalk::with_record, crate::specs::Lent::inputs_at), using(crate::proofs::WalkLaws::walk_none))]
fn walk_lines(table: &[u32]) -> Option<u64>
    ensures { result ≡ walk_lines table.now }
{
    let script_end = bytes_record(table, SCRIPT_AT, 0)?;
    let hash_end = next_record(script_end, table_entry(table, TRANSACTION_AT), 32)?;
    let inputs_end = walk_records(
        table,
        RecordForm::Input,
        INPUTS_AT,
        input_count(table),
        hash_end,
    )?;
    let outputs_end = walk_records(
        table,
        RecordForm::Output,
        outputs_at(table),
        output_count(table),
        inputs_end,
    )?;
    let deps_end = walk_records(
        table,
        RecordForm::Cell,
        deps_at(table),
        dep_count(table),
        outputs_end,
    )?;
    let witnesses_end = walk_records(
        table,
        RecordForm::Bytes,
        witnesses_at(table),
        witness_count(table),
        deps_end,
    )?;
    next_record(witnesses_end, table_entry(table, verdicts_at(table)), 0)
}

// Enough entries, and as many lines of each kind and digits as a scene may have.
#[tactic(auto, unfolding(crate::specs::RecordsWalk::counts_ok))]
fn counts_valid(table: &[u32]) -> bool
    ensures { result ≡ counts_ok table.now }
{
    TABLE_MIN_ENTRIES <= table.len()
        && table_entry(table, NO_KIND_AT) == 0
        && table_entry(table, SCRIPT_COUNT_AT) == 1
        && table_entry(table, TRANSACTION_COUNT_AT) == 1
        && input_count(table) as usize <= KIND_MAX_LINES
        && output_count(table) as usize <= KIND_MAX_LINES
        && dep_count(table) as usize <= KIND_MAX_LINES
        && witness_count(table) as usize <= KIND_MAX_LINES
        && table_entry(table, VERDICTS_COUNT_AT) == 1
        && digit_count(table) as usize <= DIGITS_MAX_COUNT
}

// Whether `n` digits from `first` on are 0, 1 or 2.
fn digits_valid(table: &[u32], first: usize, n: u32) -> bool
    requires { first < 2 ^ 40 }
    ensures { result ≡ every (λ d. ltb d 3) (records_at (table_entry table.now) 1 n first) }
{
    (0..n as usize).all(|i| table_entry(table, first + i) < 3)
}

// Whether the entries from `first` on are 0. The loop is not left early, so that the compiler tests several at once.
#[tactic(auto, using(octets::proofs::Every::every_turns))]
fn zeros_from(table: &[u32], first: usize) -> bool
    ensures { result ≡ every (λ e. eqb e 0) (drop first table.now) }
{
    let behind = table.get(first..).unwrap_or(&[]);
    let mut zero = true;
    for &entry in behind {
        zero &= entry == 0;
    }
    zero
}

// The lines, the digits, the room for the bytes, and the entries behind.
#[tactic(auto, unfolding(crate::specs::RecordsWalk::rest_ok, crate::specs::RecordsWalk::zeros_behind, crate::specs::Lent::digit_count, crate::specs::Lent::scene_from, crate::specs::Lent::blank_scene))]
fn rest_valid(table: &[u32], room: usize) -> bool
    ensures { result ≡ rest_ok table.now room }
{
    let Some(used) = walk_lines(table) else {
        return false;
    };
    let first = verdicts_at(table) + DIGITS;
    let count = digit_count(table);
    digits_valid(table, first, count)
        && used <= room as u64
        && zeros_from(table, first + count as usize)
}

// Whether a scene, its length aside, leaves this table with a store of `room` bytes.
pub fn table_valid(table: &[u32], room: usize) -> bool
    ensures { result ≡ valid_table table.now room }
{
    counts_valid(table) && rest_valid(table, room)
}
