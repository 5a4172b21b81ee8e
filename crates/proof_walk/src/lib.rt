// The walk over the proofs of a witness lock: each one's rows, its request in the answer buffer, its verdict and its weight.
#![tactic(auto)]

mod request; // request.rt
mod walk; // walk.rt

pub use self::walk::{ProofWalkAnswer, walk_proofs};

// What every request is for: the operation, and the digest that it is over.
#[derive(Clone, Copy)]
pub struct Authorization {
    pub operation: u8,
    pub digest: [u8; 32],
}
