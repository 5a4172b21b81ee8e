// The entries of the lent table by name, laid out as docs/LAYOUTS.md, "The lent table and store", says.

// How many lines of each kind there are: the table's first entries. The very first belongs to no kind.
pub(crate) const NO_KIND_AT: usize = 0;

pub(crate) const SCRIPT_COUNT_AT: usize = 1;

pub(crate) const TRANSACTION_COUNT_AT: usize = 2;

pub(crate) const INPUT_COUNT_AT: usize = 3;

pub(crate) const OUTPUT_COUNT_AT: usize = 4;

pub(crate) const DEP_COUNT_AT: usize = 5;

pub(crate) const WITNESS_COUNT_AT: usize = 6;

pub(crate) const VERDICTS_COUNT_AT: usize = 7;

// Where the records of the script, of tx and of the inputs begin.
pub(crate) const SCRIPT_AT: usize = 8;

pub(crate) const TRANSACTION_AT: usize = 10;

pub(crate) const INPUTS_AT: usize = 11;

// How many entries the record of an input has, that of an output, of a dep, and of a witness.
pub(crate) const INPUT_WIDTH: usize = 8;

pub(crate) const OUTPUT_WIDTH: usize = 5;

pub(crate) const CELL_WIDTH: usize = 3;

pub(crate) const BYTES_WIDTH: usize = 2;

// What stands in a record, counted from its first entry, which has the offset in the store. In the record of the script or of a
// witness: the length.
pub(crate) const BYTES_LENGTH: usize = 1;

// In that of an input.
pub(crate) const INPUT_GROUP: usize = 1;

pub(crate) const INPUT_SINCE: usize = 2;

pub(crate) const INPUT_SCRIPT_LENGTH: usize = 4;

pub(crate) const INPUT_DATA_LENGTH: usize = 5;

pub(crate) const INPUT_CAPACITY: usize = 6;

// In that of an output or of a dep, and of an output only.
pub(crate) const CELL_SCRIPT_LENGTH: usize = 1;

pub(crate) const CELL_DATA_LENGTH: usize = 2;

pub(crate) const OUTPUT_CAPACITY: usize = 3;

// In that of the verdicts.
pub(crate) const DIGIT_COUNT: usize = 1;

pub(crate) const DIGITS: usize = 2;
