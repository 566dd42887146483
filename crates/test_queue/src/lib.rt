//! The queue for the panel, held to the words of the rule: random lists of calls, and how long each job waits.
#![tactic(auto)]

pub mod calls;
pub mod definition;
pub mod exported;
pub mod lists;
pub mod waits;
