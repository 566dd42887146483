//! The theory of the best chain: definitions in specs, laws in proofs, and no function.
#![tactic(auto)]
