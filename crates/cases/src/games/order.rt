// The orders of the two finders.
use crate::subset::Subset;

// In which order a finder tells the answer sets.
#[derive(Clone, Copy, PartialEq, Eq)]
pub(crate) enum Order {
    Counting,
    Branching,
}

impl Order {
    // A set of a lower rank comes first. Counting: the set as a binary number whose lowest digit is atom 0. Branching: the same
    // with atom 0 as the highest digit.
    pub(crate) fn rank(self, set: Subset) -> u32 {
        match self {
            Order::Counting => set.number(),
            Order::Branching => set.number().reverse_bits(),
        }
    }
}
