// Demand 3: one lock-step run speaks for every run of the independent threads. See proofs/Theorem.antt. No code.
#![tactic(auto)]
