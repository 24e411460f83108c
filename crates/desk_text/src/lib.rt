// What a line of the desk says, and the lines that it prints, as functions on values.
#![tactic(auto)]

pub mod command;
pub mod lines;
#[cfg(test)]
mod tests;
mod verb;
mod words;
