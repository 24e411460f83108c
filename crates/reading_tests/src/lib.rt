// Tests of reading a side and three texts: what is refused, at which place, in which order, and what is read.
#![tactic(auto)]

#[cfg(test)]
mod accepted;
#[cfg(test)]
mod bytes;
#[cfg(test)]
mod limits;
#[cfg(test)]
mod order;
#[cfg(test)]
mod refused;
#[cfg(test)]
mod told;
