// The pieces of a cover, computed leanly, and their union in lanes are the cover's own but for zeros' signs, where a few coarser pieces are accepted.
// Laws in proofs/. No code.
#![tactic(auto)]
