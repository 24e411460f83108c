// Decides answer sets: the reduct and the dependency edges as growing steps, the test, strata, levels and judgement.
#![tactic(auto)]

pub mod bounds;
mod constraints;
mod edges;
pub mod job;
pub mod levels;
mod literals;
mod picking;
mod reduct;
mod settling;
pub mod strata;
pub mod stratified;
