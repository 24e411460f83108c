// The first reply that beats a plan.
ghost use Rattle.std.specs.Option.{MatchOption};
ghost use Rattle.std.specs.List.{AllByRecursion};
ghost use Rattle.finders.specs.Meanings.{Taken};
ghost use Rattle.game.specs.Game.{Beats};
ghost use Rattle.programs.specs.Programs.{rules_of};
ghost use Rattle.runs.specs.Book.{First};
ghost use Rattle.book.specs.Models.{texts_from};

use crate::following::following;
use crate::loaded::Loaded;
use closure::mask::Mask;
use closure::row::Row;
use finders::finder::Finder;
use solving::job::Job;

impl Loaded {
    // The first reply to the plan, in the finder's order, that beats it.
    pub(crate) fn first_beating<'j, F: Finder<96>>(
        &'j self,
        finder: &F,
        plan: &'j Row<96>,
    ) -> Option<Row<96>>
        requires { Taken 96 (F.meaning finder.now).most (rules_of self.now.faults) plan.now.marks }
        ensures { MatchOption result (AllByRecursion (λ x. Beats (texts_from self.now) plan.now.marks x → ⊥) ((F.meaning finder.now).order (rules_of self.now.faults) plan.now.marks)) (λ x. First (Beats (texts_from self.now) plan.now.marks) ((F.meaning finder.now).order (rules_of self.now.faults) plan.now.marks) x.marks) }
    {
        let job = Job {
            program: &self.faults,
            given: plan,
        };
        let mask = Mask::of(plan);
        let mut earlier = None;
        while let Some(reply) = following(finder, job, earlier) {
            if self.refutes(mask, Mask::of(&reply)) {
                return Some(reply);
            }
            earlier = Some(reply);
        }
        None
    }
}
