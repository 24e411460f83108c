// Reads a side and three texts: the questions of each text, and those over the texts together.
#![tactic(auto)]

pub mod games;
mod heads;
pub mod side;
pub mod sources;
pub mod texts;
