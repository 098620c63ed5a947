// The worked launches are data in proofs/, each list with the statement that the definitions compute it. No code.
#![tactic(auto)]
