// The functions that programs in other languages call. A reader returns document 01's number, 0 where it accepts, and then
// stores its numbers as 64-bit words at the front of `out`; so does a hash with its 32 bytes. An `out` that is too short for
// all of them is 5, after every other refusal, and a refusal leaves `out` as it is. A writer returns the number and stores the
// length it wrote in `len`, which a refusal leaves as it is.
#![tactic(auto)]

mod hash; // hash.rt
mod args; // args.rt
mod state; // state.rt
mod witness; // witness.rt
mod request; // request.rt
mod proof; // proof.rt
