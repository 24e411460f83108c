// The book that is kept on a game: load, ask, strike, look, wipe.
#![tactic(auto)]

pub mod book;
mod following;
mod judging;
mod kind;
mod loaded;
mod open;
mod pair;
mod passing;
mod plans;
mod questions;
mod replies;
pub mod told;
