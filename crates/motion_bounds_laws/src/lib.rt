// Laws of the motion box: which numbers and counts its answers carry, that it is the book's box, and what an unused place of the zero array means:
// specs/ and proofs/. No code.
#![tactic(auto)]
