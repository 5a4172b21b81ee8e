// The functions on witnesses, scripts and the hashes of a transaction that programs in other languages call. They answer as
// those of crate `exports` do.
#![tactic(auto)]

mod tables; // tables.rt
mod hashes; // hashes.rt
