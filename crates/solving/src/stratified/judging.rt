// The judgement of a stratified program: the atoms are settled level by level, and the constraints are tested.
ghost use Rattle.std.specs.Prelude.{ℕ};
ghost use Rattle.game.specs.Derives.{Settles, SmallestClosed, derives_at};
ghost use Rattle.game.specs.Sets.{In};
ghost use Rattle.programs.specs.Programs.{rules_of};
ghost use Rattle.solving.specs.Judged.{Judged, OneAnswer};
ghost use Rattle.solving.specs.Levels.{level_in};

use super::Stratified;
use crate::constraints::violates;
use crate::picking::Picked;
use crate::settling::AtLevel;
use closure::closing::closure;
use closure::row::Row;

impl<const N: usize> Stratified<N> {
    // The set with all that follows for heads of this level, where the levels below it are settled.
    fn settle_level<'x>(&'x self, level: usize, set: &'x Row<N>) -> Row<N>
        ensures { SmallestClosed N (derives_at (rules_of self.now.program) (level_in self.now.levels.of) level set.now.marks) set.now.marks result.marks }
    {
        closure(
            &Picked {
                program: &self.program,
                picker: AtLevel {
                    levels: &self.levels,
                    level,
                    against: set,
                },
            },
            set,
        )
    }

    // The given atoms and all that follows from them, one level after another.
    fn settle(&self, given: &Row<N>) -> Row<N>
        ensures { Settles N (rules_of self.now.program) (level_in self.now.levels.of) 0 N given.now.marks result.marks }
    {
        let mut set = *given;
        for level in 0..N {
            if self.used.at(level) {
                set = self.settle_level(level, &set);
            }
        }
        set
    }

    // Has the program an answer set with these atoms given?
    pub fn holds(&self, given: &Row<N>) -> bool
        ensures { Judged (rules_of self.now.program) given.now.marks result }
    {
        let set = self.settle(given);
        !violates(self.program.rules(), &set)
    }

    // The answer set of the headed rules with these atoms given: the only one, where no given atom is a head. It holds no given atom.
    pub fn answer(&self, given: &Row<N>) -> Row<N>
        ensures one { OneAnswer (rules_of self.now.program) given.now.marks result.marks }
        ensures new { (a : ℕ) → In a result.marks → ¬ In a given.now.marks }
    {
        self.settle(given).minus(given)
    }
}
