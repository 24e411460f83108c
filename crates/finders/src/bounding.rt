// Sets between which answer sets lie, and how they are brought closer together.
ghost use Rattle.std.specs.Prelude.{ℕ, true, ◌≢◌};
ghost use Rattle.std.specs.Option.{MatchOption};
ghost use Rattle.closure.specs.Bits.{bit_row};
ghost use Rattle.programs.specs.Programs.{rules_of};
ghost use Rattle.finders.specs.Between.{Between, Narrower};
ghost use Rattle.game.specs.Rules.{is_head};
ghost use Rattle.game.specs.Sets.{Row as Marks, In, Within};

use closure::mask::Mask;
use masked::job::MaskJob;

// What is in every answer set in question, with the given atoms, none of which is a head; and what may be in one.
#[derive(Clone, Copy)]
pub(crate) struct Bounds<'a> {
    pub(crate) job: MaskJob<'a>,
    pub(crate) low: Mask,
    pub(crate) high: Mask,
    ghost around: { Within (bit_row job.given.bits) (bit_row low.bits) },
    ghost apart: { (a : ℕ) → In a (bit_row job.given.bits) → is_head (rules_of job.program.now) a ≢ true },
}

impl<'a> Bounds<'a> {
    // The bounds with all that must be derived, and without what cannot be; none where no answer set lies between them.
    pub(crate) fn narrowed(&self) -> Option<Bounds<'a>>
        ensures { MatchOption result ((i : Marks) → Between (rules_of self.now.job.program.now) (bit_row self.now.job.given.bits) (bit_row self.now.low.bits) (bit_row self.now.high.bits) i → ⊥) (λ b. Narrower (rules_of self.now.job.program.now) (bit_row self.now.job.given.bits) (bit_row self.now.low.bits) (bit_row self.now.high.bits) (bit_row b.low.bits) (bit_row b.high.bits)) }
    {
        let job = self.job;
        let derivable = job.least(self.low);
        let high = self.high.minus(self.high.minus(derivable));
        if !self.low.is_within(high) {
            return None;
        }
        let low = self.low.union(job.least(high));
        if !low.is_within(high) {
            return None;
        }
        if job.breaks(high, low) {
            return None;
        }
        Some(Bounds { job, low, high })
    }
}
