// A stored transform over a box, by interval steps and by pbrt's `transform_bounds`: the same box and the same refusal. Laws in proofs/. No code.
#![tactic(auto)]
