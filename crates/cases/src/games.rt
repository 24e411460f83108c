// Whole games, played through the calls of a book.
mod answers;
pub(crate) mod known;
mod making;
mod model;
mod names;
mod numbering;
pub(crate) mod order;
pub(crate) mod playing;
mod refused;
mod sheet;
mod solver;
pub(crate) mod some;
mod spelling;
pub(crate) mod tally;
mod texts;
mod trial;
