// Floats and intervals that are equal but for a zero's sign: every operation of the cover takes them to such, and terms by constants may go. Laws in
// proofs/. No code.
#![tactic(auto)]
