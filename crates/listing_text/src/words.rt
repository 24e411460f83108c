// Which finder is asked for.
ghost use Rattle.listing_text.specs.Words.{Ordered};

use std::str::FromStr;

// In which order the sets are listed.
#[derive(Clone, Copy, PartialEq, Eq, Debug)]
pub enum Order {
    Counting,
    Branching,
}

// A word that names no order.
#[derive(Clone, Copy, PartialEq, Eq, Debug)]
pub struct UnknownOrder;

impl FromStr for Order {
    type Err = UnknownOrder;

    ghost from_str_gives = { Ordered };

    fn from_str(word: &str) -> Result<Self, UnknownOrder> {
        if word == "counting" {
            Ok(Order::Counting)
        } else if word == "branching" {
            Ok(Order::Branching)
        } else {
            Err(UnknownOrder)
        }
    }
}
