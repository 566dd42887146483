//! The brute force: what texts, seeds, chains, open areas and stretches must be, straight by the definitions, and the areas' order of work, by the
//! paper's Algorithm 3, on small inputs.
#![tactic(auto)]

pub mod areas;
pub mod lists;
pub mod nodes;
pub mod paper;
pub mod seeds;
pub mod stretches;
pub mod table;
pub mod texts;
