// What a call that reads texts refuses, and the line that tells it.
#![tactic(auto)]

pub mod fault;
pub mod line;
pub mod room;
