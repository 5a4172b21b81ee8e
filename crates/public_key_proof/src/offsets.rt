// Where the fields of a public-key proof begin; the key follows them, and then the signature.
pub(crate) const VERSION_OFFSET: usize = 0;

pub(crate) const PUBLIC_KEY_LENGTH_OFFSET: usize = 1;

pub(crate) const SIGNATURE_LENGTH_OFFSET: usize = 3;

pub(crate) const PUBLIC_KEY_OFFSET: usize = 5;
