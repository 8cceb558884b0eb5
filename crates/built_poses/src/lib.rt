// Laws only: the poses that a built chain was built from.
#![tactic(auto)]
