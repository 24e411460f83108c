// A game solved by the definitions of the textbooks: every plan with every reply.
use crate::games::numbering::Numbering;
use crate::games::order::Order;
use crate::games::texts::Game;
use crate::subset::Subset;
use crate::textbook::Textbook;
use std::alloc::{AllocError, Global};

// A reply to a plan.
#[derive(Clone, Copy)]
pub(crate) struct Reply {
    pub(crate) set: Subset,
    pub(crate) beats: bool,
}

// A plan with its replies, in an order.
#[derive(Drop)]
pub(crate) struct Plan {
    pub(crate) set: Subset,
    pub(crate) replies: Vec<Reply>,
}

impl Plan {
    // The first of the replies that beats the plan.
    pub(crate) fn first_beating(&self) -> Option<Subset> {
        self.replies
            .iter()
            .find(|reply| reply.beats)
            .map(|reply| reply.set)
    }

    // A plan wins when no reply beats it.
    pub(crate) fn wins(&self) -> bool {
        self.first_beating().is_none()
    }

    // Is the set a reply to this plan that beats it?
    pub(crate) fn is_beaten_by(&self, set: Subset) -> bool {
        self.replies
            .iter()
            .any(|reply| reply.set == set && reply.beats)
    }
}

// The three texts over the atoms' numbers.
#[derive(Drop)]
struct Texts {
    heap: Global,
    side: u8,
    plan: Textbook,
    faults: Textbook,
    site: Textbook,
}

impl Texts {
    // Numbers the atoms through the plan text, the fault text and the site text.
    fn of(heap: Global, game: &Game) -> Result<Texts, AllocError> {
        let mut numbering = Numbering::new();
        let plan = numbering.lines(heap, game.plan.lines.as_slice())?;
        let faults = numbering.lines(heap, game.faults.lines.as_slice())?;
        let site = numbering.lines(heap, game.site.lines.as_slice())?;
        Ok(Texts {
            heap,
            side: game.side,
            plan: Textbook::of(heap, plan.as_slice())?,
            faults: Textbook::of(heap, faults.as_slice())?,
            site: Textbook::of(heap, site.as_slice())?,
        })
    }

    // On side 1 a reply beats where the site text does not hold, on side 2 where it does.
    fn beats(&self, plan: Subset, reply: Subset) -> bool {
        self.site.holds(plan.or(reply)) == (self.side == 2)
    }

    // The plan with its replies, which are the answer sets of the fault text with the plan given.
    fn plan(&self, set: Subset, order: Order) -> Result<Plan, AllocError> {
        let mut sets = self.faults.all_answers(self.heap, set)?;
        sets.sort_unstable_by_key(|reply| order.rank(*reply));
        let replies = sets
            .iter()
            .map(|reply| Reply {
                set: *reply,
                beats: self.beats(set, *reply),
            })
            .collect(self.heap)?;
        Ok(Plan { set, replies })
    }

    // The plans, which are the answer sets of the plan text with nothing given.
    fn plans(&self, order: Order) -> Result<Vec<Plan>, AllocError> {
        let mut sets = self.plan.all_answers(self.heap, Subset::numbered(0))?;
        sets.sort_unstable_by_key(|plan| order.rank(*plan));
        sets.iter()
            .map(|plan| -> Result<Plan, AllocError> { self.plan(*plan, order) })
            .try_collect(self.heap)
    }
}

// The plans of a game, in the order of either finder.
#[derive(Drop)]
pub(crate) struct Solution {
    counting: Vec<Plan>,
    branching: Vec<Plan>,
}

impl Solution {
    // Solves a game that loads.
    pub(crate) fn of(heap: Global, game: &Game) -> Result<Solution, AllocError> {
        let texts = Texts::of(heap, game)?;
        Ok(Solution {
            counting: texts.plans(Order::Counting)?,
            branching: texts.plans(Order::Branching)?,
        })
    }

    // The plans in this order.
    pub(crate) fn plans(&self, order: Order) -> &[Plan] {
        match order {
            Order::Counting => self.counting.as_slice(),
            Order::Branching => self.branching.as_slice(),
        }
    }
}
