// The range assertions of pbrt's Interval::sin and Interval::cos never fire in the zero search of a built move: specs/ and proofs/. No code.
#![tactic(auto)]
