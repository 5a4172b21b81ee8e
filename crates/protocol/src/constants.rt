// Those constants of the original's constants.rs that the port uses, and document 02's. A magic is the little-endian number of its
// four bytes.
pub const ACCOUNT_LOCK_VERSION: u8 = 0x01;

pub const ACCOUNT_LOCK_ARGS_LEN: usize = 33;

pub const ACCOUNT_STATE_MAGIC: u32 = 0x5341_4b43;

pub const ACCOUNT_STATE_VERSION: u8 = 0x01;

pub const ACCOUNT_STATE_HEADER_LEN: usize = 32;

pub const ACCOUNT_STATE_MAX_LEN: usize = 16_384;

pub const AUTHENTICATOR_MAX_COUNT: usize = 16;

// Document 02, change 6: a profile byte and an ML-DSA-87 public key.
pub const ACCOUNT_STATE_MAX_AUX_LEN: usize = 2_593;

pub const ACCOUNT_WITNESS_MAGIC: u32 = 0x5741_4b43;

pub const ACCOUNT_WITNESS_VERSION: u8 = 0x01;

pub const ACCOUNT_WITNESS_HEADER_LEN: usize = 16;

pub const ACCOUNT_WITNESS_MAX_LOCK_LEN: usize = 131_072;

pub const VERIFIER_MAGIC: u32 = 0x5256_4b43;

pub const VERIFIER_ABI_V1: u8 = 0x01;

pub const VERIFIER_REQUEST_HEADER_LEN: usize = 96;

pub const VERIFIER_MAX_AUX_LEN: usize = 4_096;

pub const VERIFIER_MAX_PROOF_LEN: usize = 65_536;

pub const VERIFIER_MAX_REQUEST_LEN: usize = 69_728;

pub const AUTH_DOMAIN: [u8; 19] = *b"CKB_ACCOUNT_LOCK_V1";

// An operation stays a number: every public function that takes one promises 37 for a number outside 1 to 3.
pub const OP_SPEND: u8 = 0x01;

pub const OP_ROTATE: u8 = 0x02;

pub const OP_RECOVERY: u8 = 0x03;

pub const CAP_SPEND: u16 = 0x0001;

pub const CAP_ROTATE: u16 = 0x0002;

pub const CAP_RECOVERY: u16 = 0x0004;

pub const CAP_SESSION_ISSUE: u16 = 0x0008;

pub const CAP_KNOWN_MASK: u16 = 0x000f;

pub const STATE_FLAG_RECOVERY_ENABLED: u8 = 0x01;

pub const STATE_FLAG_SESSION_ENABLED: u8 = 0x02;

pub const STATE_FLAGS_KNOWN_MASK: u8 = 0x03;

pub const ALG_P256_WEBAUTHN: u16 = 0x0001;

pub const ALG_MLDSA44: u16 = 0x0101;

pub const ALG_MLDSA65: u16 = 0x0102;

pub const ALG_MLDSA87: u16 = 0x0103;

pub const ALG_SLHDSA: u16 = 0x0201;
