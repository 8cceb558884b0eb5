// Document 01's cases marked P as a table of rows, with one theorem over all of them, and the guarantee applied to one of its moves.
// Statements in specs/, proofs in proofs/. No code.
#![tactic(auto)]
