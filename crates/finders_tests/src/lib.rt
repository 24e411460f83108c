// Listings of small texts, run through the finders.
#![tactic(auto)]

#[cfg(test)]
mod finding;
#[cfg(test)]
mod listings;
#[cfg(test)]
mod refused;
