// No code: laws of lent places of which the first are written.
#![tactic(auto)]
