// The rounded midpoint of two floats lies from one to the other, where their sum doesn't overflow. Laws in proofs/. No code.
#![tactic(auto)]
