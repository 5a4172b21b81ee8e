// The writer of witness locks: its refusals, then its stores.
#![tactic(auto)]

mod check; // check.rt
mod store; // store.rt
mod encode; // encode.rt

pub use self::encode::encode_witness;
