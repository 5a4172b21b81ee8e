// What the lock hashes: the digest that an authorization is over, and the witnesses of the sighash.
#![tactic(auto)]

mod digest; // digest.rt
mod witness; // witness.rt

pub use self::digest::{authorization_digest, digest_of};
pub use self::witness::{feed_canonical_witness, feed_witness};
