// The questions of an ask, and what it says of the loaded texts.
ghost use Rattle.std.specs.Prelude.{◌≡◌, Bool, Decides};
ghost use Rattle.finders.specs.Meanings.{heads_below};
ghost use Rattle.game.specs.Sides.{Side as Meant};
ghost use Rattle.loading.specs.Sided.{side_of};
ghost use Rattle.programs.specs.Programs.{rules_of};
ghost use Rattle.book.specs.Answers.{coherence_model};
ghost use Rattle.book.specs.Asks.{Over, coherence_by};

use crate::loaded::Loaded;
use crate::told::Coherence;
use loading::side::Side;
use solving::bounds::heads;

impl Loaded {
    // Has the plan text or the fault text more heads than this?
    pub(crate) fn has_more_heads(&self, most: usize) -> bool
        ensures { Decides result (Over most (rules_of self.now.plan) (rules_of self.now.faults)) }
    {
        if heads(&self.plan).count() > most {
            return true;
        }
        heads(&self.faults).count() > most
    }
}

// On the first side texts are coherent where some plan wins, on the second where none does.
pub(crate) fn coherence(side: Side, wins: bool) -> Coherence
    ensures { coherence_model result ≡ coherence_by (side_of side) wins }
{
    match (side, wins) {
        (Side::SomePlan, true) => Coherence::Coherent,
        (Side::SomePlan, false) => Coherence::Incoherent,
        (Side::EveryPlan, true) => Coherence::Incoherent,
        (Side::EveryPlan, false) => Coherence::Coherent,
    }
}
