// Laws only: the cover of a box's motion, an interval enclosure from the steps of a pose read in intervals, and its guarantee.
#![tactic(auto)]
