// A program with the atoms that are given.
ghost use Rattle.std.specs.Prelude.{Decides};
ghost use Rattle.game.specs.AnswerSets.{AnswerSet, Smallest};
ghost use Rattle.programs.specs.Programs.{rules_of};

use crate::bounds::{breaks_constraint, heads};
use crate::picking::Picked;
use crate::reduct::Reduct;
use closure::closing::closure;
use closure::row::Row;
use programs::program::Program;

#[derive(Clone, Copy)]
pub struct Job<'a, const N: usize> {
    pub program: &'a Program<N>,
    pub given: &'a Row<N>,
}

impl<'a, const N: usize> Job<'a, N> {
    // The smallest set that contains the given atoms and obeys the reduct for `against`.
    pub fn least(&self, against: &Row<N>) -> Row<N>
        ensures { Smallest (rules_of self.now.program.now) self.now.given.now.marks against.now.marks result.marks }
    {
        closure(
            &Picked {
                program: self.program,
                picker: Reduct { against },
            },
            self.given,
        )
    }

    // Is the row an answer set of the program with these atoms given?
    pub fn is_answer_set(&self, row: &Row<N>) -> bool
        ensures { Decides result (AnswerSet (rules_of self.now.program.now) self.now.given.now.marks row.now.marks) }
    {
        let heads = heads(self.program);
        if row.union(&heads) != heads {
            return false;
        }
        let all = row.union(self.given);
        if self.least(&all) != all {
            return false;
        }
        !breaks_constraint(self.program, &all, &all)
    }
}
