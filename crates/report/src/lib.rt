// What the program takes in and prints, as functions on values.
#![tactic(auto)]

pub mod input;
mod known;
pub mod lines;
pub mod verdict;
