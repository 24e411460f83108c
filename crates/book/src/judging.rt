// Does a reply beat a plan?
ghost use Rattle.std.specs.Prelude.{Decides};
ghost use Rattle.closure.specs.Bits.{bit_row};
ghost use Rattle.game.specs.Game.{Refutes, Holds, Beats};
ghost use Rattle.book.specs.Models.{texts_from};

use crate::loaded::Loaded;
use closure::mask::Mask;
use loading::side::Side;
use masked::job::MaskJob;
use masked::judging::holds;

impl Loaded {
    // Is the site text, for this plan and reply, as the side does not want it?
    pub(crate) fn refutes(&self, plan: Mask, reply: Mask) -> bool
        ensures { Decides result (Refutes (texts_from self.now).side (Holds (texts_from self.now) (bit_row plan.bits) (bit_row reply.bits))) }
    {
        let holds = holds(&self.site, plan.union(reply));
        match self.side {
            Side::SomePlan => !holds,
            Side::EveryPlan => holds,
        }
    }

    // Is it a reply to this plan, and does it beat the plan?
    pub(crate) fn beats(&self, plan: Mask, reply: Mask) -> bool
        ensures { Decides result (Beats (texts_from self.now) (bit_row plan.bits) (bit_row reply.bits)) }
    {
        let job = MaskJob {
            program: &self.faults,
            given: plan,
        };
        if !job.is_answer_set(reply) {
            return false;
        }
        self.refutes(plan, reply)
    }
}
