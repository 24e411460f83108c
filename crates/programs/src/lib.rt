// Rules and programs as values, with the limits that every program keeps.
#![tactic(auto)]

pub mod mask_rule;
pub mod masks;
pub mod program;
pub mod rule;
