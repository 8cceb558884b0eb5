// Laws only: the cover of one window of a chain's times.
#![tactic(auto)]
