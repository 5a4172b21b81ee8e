// Where the fields of a request begin.
pub(crate) const MAGIC_OFFSET: usize = 0;

pub(crate) const ABI_OFFSET: usize = 4;

pub(crate) const RESERVED_OFFSET: usize = 5;

pub(crate) const HEADER_LENGTH_OFFSET: usize = 6;

pub(crate) const ALGORITHM_OFFSET: usize = 8;

pub(crate) const SLOT_OFFSET: usize = 10;

pub(crate) const OPERATION_OFFSET: usize = 12;

pub(crate) const PROFILE_OFFSET: usize = 13;

pub(crate) const ZEROS_OFFSET: usize = 14;

pub(crate) const DIGEST_OFFSET: usize = 16;

pub(crate) const KEY_OFFSET: usize = 48;

pub(crate) const AUX_LENGTH_OFFSET: usize = 80;

pub(crate) const PROOF_LENGTH_OFFSET: usize = 84;

pub(crate) const LAST_ZEROS_OFFSET: usize = 88;
