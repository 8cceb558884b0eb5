// Laws only: which refusal numbers building, each query and the answer to any file can give.
#![tactic(auto)]
