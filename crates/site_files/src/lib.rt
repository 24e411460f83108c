// What the programs take in and hand out: a byte of the input, the three files of a site, a refusal.
#![tactic(auto)]

pub mod files;
pub mod input;
pub mod refusal;
#[cfg(test)]
mod tests;
