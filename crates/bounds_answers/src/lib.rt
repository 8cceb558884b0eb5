// Laws only: the union of a list of answers.
#![tactic(auto)]
