// Laws only: what is tried of a chain with one pose changed, and that only the moves beside that pose change.
#![tactic(auto)]
