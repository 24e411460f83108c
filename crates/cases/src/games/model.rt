// A book as a list of plain things, and what each call makes of it.
use crate::games::known::Known;
use crate::games::order::Order;
use crate::games::solver::Plan;
use crate::subset::Subset;
use std::alloc::{AllocError, Global};

// A plan with a reply, or a struck plan with nothing.
#[derive(Clone, Copy, PartialEq, Eq)]
pub(crate) struct Pair {
    pub(crate) plan: Subset,
    pub(crate) reply: Subset,
}

// What an ask tells, and the set in its row.
#[derive(Clone, Copy, PartialEq, Eq)]
pub(crate) struct Answer {
    pub(crate) verdict: u8,
    pub(crate) coherence: u8,
    pub(crate) pairs: usize,
    pub(crate) struck: usize,
    pub(crate) row: Subset,
}

// What a book holds.
#[derive(Drop)]
pub(crate) struct Model {
    // Which of the games is loaded.
    pub(crate) loaded: Option<usize>,
    pub(crate) sheet: Vec<Pair>,
    pub(crate) struck: Vec<Pair>,
    pub(crate) shown: Option<Subset>,
}

impl Model {
    // Nothing is loaded.
    pub(crate) fn new(heap: Global) -> Model {
        Model {
            loaded: None,
            sheet: Vec::new(heap),
            struck: Vec::new(heap),
            shown: None,
        }
    }

    // Keeps the loaded game alone.
    pub(crate) fn wipe(&mut self) {
        self.sheet.clear();
        self.struck.clear();
        self.shown = None;
    }

    // Loads the game at this place.
    pub(crate) fn load(&mut self, place: usize) {
        self.wipe();
        self.loaded = Some(place);
    }

    // Is the plan struck, or beaten by a reply on the sheet?
    fn passes(&self, plan: &Plan) -> bool {
        self.struck.iter().any(|struck| struck.plan == plan.set)
            || self.sheet.iter().any(|pair| plan.is_beaten_by(pair.reply))
    }

    // The first plan in this order that is not passed over and wins. Another one joins the sheet with the reply that beats it.
    fn first_winning(&mut self, plans: &[Plan]) -> Result<Option<Subset>, AllocError> {
        for plan in plans {
            if self.passes(plan) {
                continue;
            }
            let Some(reply) = plan.first_beating() else {
                return Ok(Some(plan.set));
            };
            if self.sheet.len() < 256 {
                let plan = plan.set;
                self.sheet.push(Pair { plan, reply })?;
            }
        }
        Ok(None)
    }

    // The game is the loaded one, and the plans are in the finder's order.
    pub(crate) fn ask(&mut self, game: &Known, order: Order) -> Result<Answer, AllocError> {
        self.shown = self.first_winning(game.plans(order))?;
        Ok(Answer {
            verdict: if self.shown.is_some() { 1 } else { 2 },
            coherence: if game.is_coherent() { 1 } else { 2 },
            pairs: self.sheet.len(),
            struck: self.struck.len(),
            row: self.shown.unwrap_or(Subset::numbered(0)),
        })
    }

    // The number of the refusal, if it is refused.
    pub(crate) fn strike(&mut self) -> Result<Option<u8>, AllocError> {
        if self.loaded.is_none() {
            return Ok(Some(11));
        }
        let Some(plan) = self.shown else {
            return Ok(Some(13));
        };
        if self.struck.len() >= 64 {
            return Ok(Some(14));
        }
        self.shown = None;
        let reply = Subset::numbered(0);
        self.struck.push(Pair { plan, reply })?;
        Ok(None)
    }

    // The entry, or the number of the refusal.
    pub(crate) fn look(&self, kind: u8, place: usize) -> Result<Pair, u8> {
        if self.loaded.is_none() {
            return Err(11);
        }
        let entries = match kind {
            1 => self.sheet.as_slice(),
            2 => self.struck.as_slice(),
            _ => &[],
        };
        entries.get(place).copied().ok_or(15)
    }
}
