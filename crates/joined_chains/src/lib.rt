// Laws only: two chains made one, with the pose that they share once.
#![tactic(auto)]
