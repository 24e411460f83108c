// Reads one text: characters, tokens, rules, and the table of atoms.
#![tactic(auto)]

mod classes;
mod draft;
mod lexer;
mod phase;
pub mod section;
pub mod table;
pub mod text;
pub mod token;
