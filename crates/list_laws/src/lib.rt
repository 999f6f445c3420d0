//! Laws of lists, of their items, ranges and pieces, and of bits: what the proofs of all crates cite, over std alone. Nothing
//! here runs.
#![tactic(auto)]
