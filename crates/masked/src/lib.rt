// What is asked of a program over 96 atoms over and over, by the masks of its rules.
#![tactic(auto)]

pub mod job;
pub mod judging;
mod level;
mod reduct;
mod step;
