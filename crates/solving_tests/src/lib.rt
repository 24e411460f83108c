// Answer sets, strata and judgements of small texts, run through the code.
#![tactic(auto)]

#[cfg(test)]
mod answers;
#[cfg(test)]
mod judged;
#[cfg(test)]
mod judgements;
#[cfg(test)]
mod rows;
#[cfg(test)]
mod strata;
