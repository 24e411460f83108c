// Finders of answer sets: what each owes, the counting one and the branching one.
#![tactic(auto)]

mod bounding;
pub mod branching;
pub mod counting;
pub mod finder;
pub mod listing;
mod taken;
mod writing;
