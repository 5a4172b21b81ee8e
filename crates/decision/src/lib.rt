// What the lock decides from a state's authenticators, the proofs and the verdicts.
#![tactic(auto)]
