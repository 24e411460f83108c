// Tests of what is told of a site: the names of its atoms, and the report.
#![tactic(auto)]

#[cfg(test)]
mod names;
#[cfg(test)]
mod reports;
