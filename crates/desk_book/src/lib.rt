// The book from the keyboard: its calls, told in lines.
#![tactic(auto)]

mod asking;
pub mod desk;
mod names;
mod reasons;
#[cfg(test)]
mod tests;
mod winners;
