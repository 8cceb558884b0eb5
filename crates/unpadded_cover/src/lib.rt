// With pads of +0 a cover is equal to document 01's, the one without pads. Laws in proofs/. No code.
#![tactic(auto)]
