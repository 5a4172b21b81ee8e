// The refusals: the original's, before them the port's own, and behind them document 02's.
ghost use Rattle.std.specs.Prelude.{◌≡◌};
ghost use Rattle.protocol.specs.Errors.{error_number};

#[derive(Clone, Copy, Debug, PartialEq, Eq)]
pub enum ProtocolError {
    SceneTooLong = 1,
    InvalidLine = 2,
    InvalidField = 3,
    TooManyLines = 4,
    BufferTooShort = 5,
    StoreTooShort = 6,
    SlicesDisagree = 7,
    InvalidArgs = 20,
    InvalidState = 21,
    InvalidWitness = 22,
    StateNotFound = 23,
    DuplicateState = 24,
    StateConsumedOnSpend = 25,
    InvalidTransition = 26,
    InvalidSequence = 27,
    ThresholdUnsatisfied = 28,
    InvalidCapability = 29,
    InvalidVerifierRef = 30,
    VerifierFailure = 31,
    UnsupportedVersion = 32,
    UnsupportedAlgorithm = 33,
    RecoveryLocked = 34,
    InvalidRequest = 35,
    InvalidProof = 36,
    InvalidOperation = 37,
    UnsatisfiableThreshold = 38,
    LengthOverflow = 39,
    HashMismatch = 40,
    InvalidSince = 42,
    AuxTooLong = 44,
    OutputsExceedInputs = 48,
    SessionWithdrawn = 49,
}

// The number of a refusal.
pub fn error_number(error: ProtocolError) -> u8
    ensures { result ≡ error_number error }
{
    error as u8
}
