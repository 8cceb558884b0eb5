// A value of binary32 is its own rounding, and what follows for sums and differences. Laws in proofs/. No code.
#![tactic(auto)]
