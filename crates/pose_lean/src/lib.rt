// A piece of a cover computed without judging and without terms by constants, beside the judged steps. No code: specs/means has the definitions,
// proofs/ the laws.
#![tactic(auto)]
