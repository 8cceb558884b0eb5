// Laws only: the covers of a set of boxes and their union.
#![tactic(auto)]
