// Where the fields of a witness lock begin, those of a proof counted from its first byte.
pub const WITNESS_MAGIC_OFFSET: usize = 0;

pub const WITNESS_VERSION_OFFSET: usize = 4;

pub const WITNESS_OPERATION_OFFSET: usize = 5;

pub const PROOF_COUNT_OFFSET: usize = 6;

pub const WITNESS_RESERVED_OFFSET: usize = 7;

pub const WITNESS_SEQUENCE_OFFSET: usize = 8;

pub const PROOF_RESERVED_OFFSET: usize = 2;

pub const PROOF_LENGTH_OFFSET: usize = 4;

// A proof's bytes follow its slot, zeros and length.
pub const PROOF_HEADER_LEN: usize = 8;
