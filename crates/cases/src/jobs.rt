// Small single programs, with atoms given.
pub(crate) mod comparing;
pub(crate) mod job;
mod listing;
pub(crate) mod making;
pub(crate) mod tally;
