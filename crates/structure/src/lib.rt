// That a table is accepted exactly when it is a body of the grammar, and what the runs need of an accepted table: see proofs/. No code.
#![tactic(auto)]
