// Laws only: the one way to write a move file.
#![tactic(auto)]
