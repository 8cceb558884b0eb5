// A formula read without judging and without terms by constants, alike to its judged reading where that is accepted. Laws in proofs/. No code.
#![tactic(auto)]
