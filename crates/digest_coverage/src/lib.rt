// What a digest covers: theorems about the lock's digest, without code. specs/ says what is covered, proofs/ shows it.
#![tactic(auto)]
