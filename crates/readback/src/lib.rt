// A report read back from its bytes, line by line, is the list of lines that it was made of: see proofs/. No code.
#![tactic(auto)]
