// Decides a site: a load, an ask with the branching finder, and the report.
#![tactic(auto)]

pub mod deciding;
