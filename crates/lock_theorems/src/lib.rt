// What follows from what the lock promises: theorems, without code. specs/Statements says the main ones, proofs/Statements cites each.
#![tactic(auto)]
