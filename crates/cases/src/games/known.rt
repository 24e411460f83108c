// A game with what the second solver says of it.
use crate::games::order::Order;
use crate::games::refused::{Refused, refusal_of};
use crate::games::solver::{Plan, Solution};
use crate::games::texts::Game;
use std::alloc::{AllocError, Global};

// The game, with the refusal of a load or its plans.
#[derive(Drop)]
pub(crate) struct Known {
    pub(crate) game: Game,
    // What a load of it is refused with.
    pub(crate) refused: Option<Refused>,
    // None where a load is refused.
    solution: Option<Solution>,
}

impl Known {
    // Works out whether the game loads, and where it does its plans.
    pub(crate) fn of(heap: Global, game: Game) -> Result<Known, AllocError> {
        let refused = refusal_of(heap, &game)?;
        let solution = match refused {
            Some(_) => None,
            None => Some(Solution::of(heap, &game)?),
        };
        Ok(Known {
            game,
            refused,
            solution,
        })
    }

    // The plans in the finder's order; none where a load is refused.
    pub(crate) fn plans(&self, order: Order) -> &[Plan] {
        match &self.solution {
            Some(solution) => solution.plans(order),
            None => &[],
        }
    }

    // On side 1 some plan wins, on side 2 none does.
    pub(crate) fn is_coherent(&self) -> bool {
        let some_wins = self.plans(Order::Counting).iter().any(|plan| plan.wins());
        some_wins == (self.game.side == 1)
    }
}
