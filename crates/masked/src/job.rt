// A program with the atoms that are given, as masks.
ghost use Rattle.std.specs.Prelude.{Decides};
ghost use Rattle.closure.specs.Bits.{bit_row};
ghost use Rattle.game.specs.AnswerSets.{AnswerSet, Smallest};
ghost use Rattle.programs.specs.Programs.{rules_of};
ghost use Rattle.solving.specs.Bounds.{Broken};

use crate::reduct::MaskReduct;
use crate::step::MaskPicked;
use closure::closing::closure;
use closure::mask::Mask;
use closure::set::AtomSet;
use programs::program::Program;

#[derive(Clone, Copy)]
pub struct MaskJob<'a> {
    pub program: &'a Program<96>,
    pub given: Mask,
}

impl MaskJob<'_> {
    // The smallest set that contains the given atoms and obeys the reduct for `against`.
    pub fn least(&self, against: Mask) -> Mask
        ensures { Smallest (rules_of self.now.program.now) (bit_row self.now.given.bits) (bit_row against.bits) (bit_row result.bits) }
    {
        closure(
            &MaskPicked {
                program: self.program,
                picker: MaskReduct { against },
            },
            &self.given,
        )
    }

    // Has some constraint none of its negated atoms in `against`, and all its plain atoms in `from`?
    pub fn breaks(&self, against: Mask, from: Mask) -> bool
        ensures { Decides result (Broken (rules_of self.now.program.now) (bit_row against.bits) (bit_row from.bits)) }
    {
        for rule in self.program.masks().rules() {
            if rule.is_broken(against, from) {
                return true;
            }
        }
        false
    }

    // Is the set an answer set of the program with these atoms given?
    pub fn is_answer_set(&self, set: Mask) -> bool
        ensures { Decides result (AnswerSet (rules_of self.now.program.now) (bit_row self.now.given.bits) (bit_row set.bits)) }
    {
        if !set.is_within(self.program.masks().heads()) {
            return false;
        }
        let all = set.union(self.given);
        if !self.least(all).same(&all) {
            return false;
        }
        !self.breaks(all, all)
    }
}
