// Formulas as data, read in floats and in intervals: definitions in specs/, laws in proofs/. No code.
#![tactic(auto)]
