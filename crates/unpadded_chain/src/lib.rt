// With pads of +0 the covers of chains, sets and files are equal to those without pads, and points leave pads aside. Laws in proofs/. No code.
#![tactic(auto)]
