// How an ask goes down the plans.
ghost use Rattle.std.specs.Prelude.{◌≡◌, ◌<◌, ◌≤◌, [], ◌∷◌, ◌++◌, vec_len, vec_capacity};
ghost use Rattle.programs.specs.Programs.{rules_of};
ghost use Rattle.game.specs.Game.{nothing};
ghost use Rattle.runs.specs.Book.{Asked, noted};
ghost use Rattle.book.specs.Models.{pair_of, pairs, row_shown, rows, texts_from};
ghost use Rattle.book.specs.Passing.{Takes};

use crate::following::following;
use crate::loaded::Loaded;
use crate::open::MOST_PAIRS;
use crate::pair::Pair;
use closure::mask::Mask;
use closure::row::Row;
use finders::finder::Finder;
use solving::job::Job;

// Puts the pair at the end of the sheet, unless it is full.
fn note(sheet: &mut Vec<Pair>, pair: Pair)
    requires { 256 ≤ vec_capacity sheet.old }
    ensures { (pairs sheet.new.items ≡ noted (pairs sheet.old.items) (pair_of pair)) × (vec_capacity sheet.new ≡ vec_capacity sheet.old) }
{
    if sheet.len() < MOST_PAIRS {
        sheet.push_reserved(pair);
    }
}

impl Loaded {
    // Passes over the plans that are struck or beaten, notes what newly beats one, and gives the first that nothing beats.
    pub(crate) fn first_winning<F: Finder<96>>(
        &self,
        finder: &F,
        struck: &[Row<96>],
        sheet: &mut Vec<Pair>,
    ) -> Option<Row<96>>
        requires { (Takes (F.meaning finder.now) (texts_from self.now)) × (256 ≤ vec_capacity sheet.old) }
        ensures { (Asked (texts_from self.now) (rows struck.now) (λ m. (F.meaning finder.now).order (rules_of self.now.faults) m) ((F.meaning finder.now).order (rules_of self.now.plan) nothing) (pairs sheet.old.items) (row_shown result) (pairs sheet.new.items)) × (vec_capacity sheet.new ≡ vec_capacity sheet.old) }
    {
        let nothing = Row::clear();
        let job = Job {
            program: &self.plan,
            given: &nothing,
        };
        let mut earlier = None;
        while let Some(plan) = following(finder, job, earlier) {
            if !self.passes_over(struck, sheet.as_slice(), &plan) {
                match self.first_beating(finder, &plan) {
                    None => return Some(plan),
                    Some(reply) => {
                        let reply = Mask::of(&reply);
                        note(sheet, Pair { plan, reply });
                    }
                }
            }
            earlier = Some(plan);
        }
        None
    }
}
