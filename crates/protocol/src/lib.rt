// What every format of the account shares: constants, limits, refusals and their numbers, rows of checks, algorithms and
// operations, and the lock's args.
#![tactic(auto)]

mod constants; // constants.rt
mod limits; // limits.rt
mod error; // error.rt
mod check; // check.rt
mod policy; // policy.rt
mod args; // args.rt

pub use self::args::{AccountLockArgs, account_lock_args, account_of, check_args};
pub use self::check::{check_number, require};
pub use self::constants::{
    ACCOUNT_LOCK_ARGS_LEN, ACCOUNT_LOCK_VERSION, ACCOUNT_STATE_HEADER_LEN, ACCOUNT_STATE_MAGIC,
    ACCOUNT_STATE_MAX_AUX_LEN, ACCOUNT_STATE_MAX_LEN, ACCOUNT_STATE_VERSION,
    ACCOUNT_WITNESS_HEADER_LEN, ACCOUNT_WITNESS_MAGIC, ACCOUNT_WITNESS_MAX_LOCK_LEN,
    ACCOUNT_WITNESS_VERSION, ALG_MLDSA44, ALG_MLDSA65, ALG_MLDSA87, ALG_P256_WEBAUTHN, ALG_SLHDSA,
    AUTH_DOMAIN, AUTHENTICATOR_MAX_COUNT, CAP_KNOWN_MASK, CAP_RECOVERY, CAP_ROTATE,
    CAP_SESSION_ISSUE, CAP_SPEND, OP_RECOVERY, OP_ROTATE, OP_SPEND, STATE_FLAG_RECOVERY_ENABLED,
    STATE_FLAG_SESSION_ENABLED, STATE_FLAGS_KNOWN_MASK, VERIFIER_ABI_V1, VERIFIER_MAGIC,
    VERIFIER_MAX_AUX_LEN, VERIFIER_MAX_PROOF_LEN, VERIFIER_MAX_REQUEST_LEN,
    VERIFIER_REQUEST_HEADER_LEN,
};
pub use self::error::{ProtocolError, error_number};
pub use self::limits::{
    ANSWER_BUFFER_LEN, DIGITS_MAX_COUNT, KIND_MAX_LINES, SCENE_MAX_LEN, TABLE_MIN_ENTRIES,
};
pub use self::policy::{capability_for_operation, is_operation, is_supported_algorithm};
