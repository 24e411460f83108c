// Small games, run through the calls of a book.
#![tactic(auto)]

#[cfg(test)]
mod calls;
#[cfg(test)]
mod games;
#[cfg(test)]
mod limits;
#[cfg(test)]
mod refused;
#[cfg(test)]
mod replaced;
#[cfg(test)]
mod rows;
