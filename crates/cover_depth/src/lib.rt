// Laws only: a finer cover is never a wider one.
#![tactic(auto)]
