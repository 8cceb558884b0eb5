// Laws only: a day of booms, tick by tick.
#![tactic(auto)]
