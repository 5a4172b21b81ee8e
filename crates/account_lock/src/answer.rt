// What the lock answers.
ghost use Rattle.std.specs.Prelude.{◌≡◌, Err};
ghost use Rattle.account_lock.specs.Lock as lock;

use protocol::ProtocolError;

// What the checks found; how many requests were made, and how many bytes of the answer buffer they take; whether the digest
// was reached, and the digest, zeros where it was not; and the fee, 0 where the checks refuse.
// The fee of a refusal and the digest that was not reached stand here as 0, as `fee-none` and `answer_stored` speak of them.
#[derive(Drop)]
pub struct LockAnswer {
    pub found: Result<(), ProtocolError>,
    pub count: usize,
    pub length: usize,
    pub reached: bool,
    pub digest: [u8; 32],
    pub fee: u64,
}

// A refusal before the digest is reached.
#[tactic(auto, unfolding(crate::specs::Lock::answer_of, crate::specs::Lock::refused))]
pub fn refused(error: ProtocolError) -> LockAnswer
    ensures { result ≡ lock.answer_of (lock.refused (Err error)) }
{
    LockAnswer {
        found: Err(error),
        count: 0,
        length: 0,
        reached: false,
        digest: [0; 32],
        fee: 0,
    }
}
