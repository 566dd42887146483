// The calls of the library as a script names them, with what they answer in words.
#![tactic(auto)]

pub mod changes;
pub mod example;
pub mod observe;
pub mod panel;
pub mod queues;
pub mod redeal;
pub mod reports;
pub mod scores;
pub mod views;
