// Sets of atoms as rows of marks, and the smallest set that is closed under a step.
#![tactic(auto)]

pub mod closing;
pub mod mask;
pub mod row;
pub mod set;
pub mod step;
#[cfg(test)]
mod tests;
