//! Scores and totals as texts with two decimals, held to their definition: all scores, random texts and random numbers.
#![tactic(auto)]

pub mod all;
pub mod definition;
pub mod exported;
mod looks;
pub mod numbers;
pub mod texts;
