// Laws only: the windows in which the boxes of two chains meet.
#![tactic(auto)]
