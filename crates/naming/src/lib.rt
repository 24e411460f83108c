// An atom's name, as the part of a text where the atom first stands.
#![tactic(auto)]

pub mod name;
