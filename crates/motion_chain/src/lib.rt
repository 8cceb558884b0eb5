// Laws only: a chain of 2 to 32 poses as the moves of its neighbouring pairs.
#![tactic(auto)]
