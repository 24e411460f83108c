// What the program that lists answer sets takes in and prints, as functions on values.
#![tactic(auto)]

pub mod lines;
#[cfg(test)]
mod tests;
pub mod words;
