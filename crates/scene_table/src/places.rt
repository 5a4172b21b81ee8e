// What the table says of the scene: numbers, and places of bytes in the store. An entry past the table's end counts as 0.
ghost use Rattle.std.specs.Prelude.{◌≡◌, ◌≤◌, ◌<◌, ◌^◌};
ghost use Rattle.scene_table.specs.Lent.{table_entry, table_u64, outputs_at, deps_at, witnesses_at, verdicts_at, hash_length, digit_count, input_count, output_count, dep_count, witness_count, cell_field_places, bytes_place, cell_record_places, script_place, transaction_place};
ghost use Rattle.scene_table.specs.Places.{input_at, output_at, input_group, input_since, input_capacity, input_places, output_places, output_capacity, dep_places, witness_place, verdict_of};

use crate::entries::{
    BYTES_LENGTH, BYTES_WIDTH, CELL_DATA_LENGTH, CELL_SCRIPT_LENGTH, CELL_WIDTH, DEP_COUNT_AT,
    DIGIT_COUNT, DIGITS, INPUT_CAPACITY, INPUT_COUNT_AT, INPUT_DATA_LENGTH, INPUT_GROUP,
    INPUT_SCRIPT_LENGTH, INPUT_SINCE, INPUT_WIDTH, INPUTS_AT, OUTPUT_CAPACITY, OUTPUT_COUNT_AT,
    OUTPUT_WIDTH, SCRIPT_AT, TRANSACTION_AT, WITNESS_COUNT_AT,
};
use octets::Place;

// The places of a cell's fields. A cell without a type script has nothing at the first and the third.
#[derive(Drop)]
pub struct CellPlaces {
    pub type_hash: Place,
    pub data_hash: Place,
    pub type_script: Place,
    pub content: Place,
}

#[tactic(auto, unfolding(crate::specs::Lent::table_entry))]
pub(crate) fn table_entry(table: &[u32], at: usize) -> u32
    ensures { result ≡ table_entry table.now at }
{
    table.get(at).copied().unwrap_or(0)
}

// The u64 whose halves stand at `at` and behind it.
fn table_u64(table: &[u32], at: usize) -> u64
    requires { at < 2 ^ 40 }
    ensures { result ≡ table_u64 table.now at }
{
    u64::from(table_entry(table, at)) + 4294967296 * u64::from(table_entry(table, at + 1))
}

// Where the records of each kind begin.
#[tactic(auto, unfolding(crate::specs::Lent::outputs_at, crate::specs::Lent::inputs_at))]
pub(crate) fn outputs_at(table: &[u32]) -> usize
    ensures value { result ≡ outputs_at table.now }
    ensures upper_bound { result < 2 ^ 36 }
{
    INPUTS_AT + INPUT_WIDTH * input_count(table) as usize
}

#[tactic(auto, unfolding(crate::specs::Lent::deps_at))]
pub(crate) fn deps_at(table: &[u32]) -> usize
    ensures value { result ≡ deps_at table.now }
    ensures upper_bound { result < 2 ^ 37 }
{
    outputs_at(table) + OUTPUT_WIDTH * output_count(table) as usize
}

#[tactic(auto, unfolding(crate::specs::Lent::witnesses_at))]
pub(crate) fn witnesses_at(table: &[u32]) -> usize
    ensures value { result ≡ witnesses_at table.now }
    ensures upper_bound { result < 2 ^ 38 }
{
    deps_at(table) + CELL_WIDTH * dep_count(table) as usize
}

#[tactic(auto, unfolding(crate::specs::Lent::verdicts_at))]
pub(crate) fn verdicts_at(table: &[u32]) -> usize
    ensures value { result ≡ verdicts_at table.now }
    ensures upper_bound { result < 2 ^ 39 }
{
    witnesses_at(table) + BYTES_WIDTH * witness_count(table) as usize
}

// Where the record of input `i` begins, and that of output `i`.
#[tactic(auto, unfolding(crate::specs::Places::input_at, crate::specs::Lent::inputs_at))]
fn input_at(i: u32) -> usize
    ensures value { result ≡ input_at i }
    ensures upper_bound { result < 2 ^ 36 }
{
    INPUTS_AT + INPUT_WIDTH * i as usize
}

#[tactic(auto, unfolding(crate::specs::Places::output_at))]
fn output_at(table: &[u32], i: u32) -> usize
    ensures value { result ≡ output_at table.now i }
    ensures upper_bound { result < 2 ^ 38 }
{
    outputs_at(table) + OUTPUT_WIDTH * i as usize
}

// How many bytes the type hash has beside a type script of this length.
#[tactic(auto, unfolding(crate::specs::Lent::hash_length))]
pub(crate) fn hash_length(script: u32) -> usize
    ensures value { result ≡ hash_length script }
    ensures upper_bound { result ≤ 32 }
{
    if script == 0 { 0 } else { 32 }
}

// The places of a cell whose bytes begin at `start`, by the lengths of its type script and its data.
#[tactic(auto, unfolding(crate::specs::Lent::cell_field_places))]
fn cell_places(start: u32, script: u32, content: u32) -> CellPlaces
    ensures { result ≡ cell_field_places start script content }
{
    let start = start as usize;
    let hash = hash_length(script);
    let script = script as usize;
    let behind_hashes = start + hash + 32;
    CellPlaces {
        type_hash: Place { start, len: hash },
        data_hash: Place {
            start: start + hash,
            len: 32,
        },
        type_script: Place {
            start: behind_hashes,
            len: script,
        },
        content: Place {
            start: behind_hashes + script,
            len: content as usize,
        },
    }
}

// The place of the bytes whose record begins at `at`.
#[tactic(auto, unfolding(crate::specs::Lent::bytes_place))]
fn bytes_place(table: &[u32], at: usize) -> Place
    requires { at < 2 ^ 40 }
    ensures { result ≡ bytes_place table.now at }
{
    Place {
        start: table_entry(table, at) as usize,
        len: table_entry(table, at + BYTES_LENGTH) as usize,
    }
}

// The places of the output or the dep whose record begins at `at`.
#[tactic(auto, unfolding(crate::specs::Lent::cell_record_places))]
fn record_places(table: &[u32], at: usize) -> CellPlaces
    requires { at < 2 ^ 40 }
    ensures { result ≡ cell_record_places table.now at }
{
    cell_places(
        table_entry(table, at),
        table_entry(table, at + CELL_SCRIPT_LENGTH),
        table_entry(table, at + CELL_DATA_LENGTH),
    )
}

#[tactic(auto, unfolding(crate::specs::Lent::script_place))]
pub fn script(table: &[u32]) -> Place
    ensures { result ≡ script_place table.now }
{
    bytes_place(table, SCRIPT_AT)
}

#[tactic(auto, unfolding(crate::specs::Lent::transaction_place))]
pub fn transaction_hash(table: &[u32]) -> Place
    ensures { result ≡ transaction_place table.now }
{
    Place {
        start: table_entry(table, TRANSACTION_AT) as usize,
        len: 32,
    }
}

pub fn input_count(table: &[u32]) -> u32
    ensures { result ≡ input_count table.now }
{
    table_entry(table, INPUT_COUNT_AT)
}

pub fn output_count(table: &[u32]) -> u32
    ensures { result ≡ output_count table.now }
{
    table_entry(table, OUTPUT_COUNT_AT)
}

pub fn dep_count(table: &[u32]) -> u32
    ensures { result ≡ dep_count table.now }
{
    table_entry(table, DEP_COUNT_AT)
}

pub fn witness_count(table: &[u32]) -> u32
    ensures { result ≡ witness_count table.now }
{
    table_entry(table, WITNESS_COUNT_AT)
}

#[tactic(auto, unfolding(crate::specs::Lent::digit_count))]
pub fn digit_count(table: &[u32]) -> u32
    ensures { result ≡ digit_count table.now }
{
    table_entry(table, verdicts_at(table) + DIGIT_COUNT)
}

// Whether input `i` runs this lock.
#[tactic(auto, unfolding(crate::specs::Places::input_group))]
pub fn input_group(table: &[u32], i: u32) -> bool
    ensures { result ≡ input_group table.now i }
{
    table_entry(table, input_at(i) + INPUT_GROUP) == 1
}

#[tactic(auto, unfolding(crate::specs::Places::input_since))]
pub fn input_since(table: &[u32], i: u32) -> u64
    ensures { result ≡ input_since table.now i }
{
    table_u64(table, input_at(i) + INPUT_SINCE)
}

#[tactic(auto, unfolding(crate::specs::Places::input_capacity))]
pub fn input_capacity(table: &[u32], i: u32) -> u64
    ensures { result ≡ input_capacity table.now i }
{
    table_u64(table, input_at(i) + INPUT_CAPACITY)
}

#[tactic(auto, unfolding(crate::specs::Places::input_places, crate::specs::Lent::input_record_places))]
pub fn input_cell(table: &[u32], i: u32) -> CellPlaces
    ensures { result ≡ input_places table.now i }
{
    let at = input_at(i);
    cell_places(
        table_entry(table, at),
        table_entry(table, at + INPUT_SCRIPT_LENGTH),
        table_entry(table, at + INPUT_DATA_LENGTH),
    )
}

#[tactic(auto, unfolding(crate::specs::Places::output_places))]
pub fn output_cell(table: &[u32], i: u32) -> CellPlaces
    ensures { result ≡ output_places table.now i }
{
    record_places(table, output_at(table, i))
}

#[tactic(auto, unfolding(crate::specs::Places::output_capacity))]
pub fn output_capacity(table: &[u32], i: u32) -> u64
    ensures { result ≡ output_capacity table.now i }
{
    table_u64(table, output_at(table, i) + OUTPUT_CAPACITY)
}

#[tactic(auto, unfolding(crate::specs::Places::dep_places))]
pub fn dep_cell(table: &[u32], i: u32) -> CellPlaces
    ensures { result ≡ dep_places table.now i }
{
    record_places(table, deps_at(table) + CELL_WIDTH * i as usize)
}

#[tactic(auto, unfolding(crate::specs::Places::witness_place))]
pub fn witness(table: &[u32], i: u32) -> Place
    ensures { result ≡ witness_place table.now i }
{
    bytes_place(table, witnesses_at(table) + BYTES_WIDTH * i as usize)
}

// The digit of proof `i`; 2 where there is none.
#[tactic(auto, unfolding(crate::specs::Places::verdict_of, crate::specs::Places::verdict_at, crate::specs::Lent::digit_count, crate::specs::Lent::scene_from, crate::specs::Lent::blank_scene), using(crate::proofs::Records::digit_reads))]
pub fn verdict(table: &[u32], i: u32) -> u32
    ensures { result ≡ verdict_of table.now i }
{
    if i < digit_count(table) {
        table_entry(table, verdicts_at(table) + DIGITS + i as usize)
    } else {
        2
    }
}
