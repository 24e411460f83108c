// Levels of atoms: how many atoms an atom cannot reach.
ghost use Rattle.std.specs.Prelude.{◌≡◌, ℕ, ◌<◌, true, length};
ghost use Rattle.game.specs.Rules.{is_head};
ghost use Rattle.game.specs.Sets.{In};
ghost use Rattle.programs.specs.Programs.{rules_of};
ghost use Rattle.solving.specs.Levels.{Ranked, level_in};

use crate::edges::reach;
use closure::row::Row;
use programs::program::Program;

// A level for each atom.
#[derive(Clone, Copy)]
pub struct Levels<const N: usize> {
    of: [usize; N],
    ghost wide: { length of ≡ N },
}

impl<const N: usize> Levels<N> {
    // The level of the atom; past the last it is 0.
    pub fn of(&self, atom: u16) -> usize
        ensures { result ≡ level_in self.now.of atom }
    {
        self.of.get(usize::from(atom)).copied().unwrap_or(0)
    }

    // The levels below N that heads have.
    pub(crate) fn used(&self, program: &Program<N>) -> Row<N>
        ensures { (a : ℕ) → is_head (rules_of program.now) a ≡ true → level_in self.now.of a < N → In (level_in self.now.of a) result.marks }
    {
        let mut used = Row::clear();
        for rule in program.rules() {
            if let Some(head) = rule.head {
                used = used.with(self.of(head));
            }
        }
        used
    }
}

// The levels of the atoms below N.
pub(crate) fn rank<const N: usize>(program: &Program<N>) -> Levels<N>
    ensures { Ranked (rules_of program.now) N N result.of }
{
    let mut of = [0; N];
    for (atom, level) in of.iter_mut().enumerate() {
        let reached = reach(program, atom);
        *level = N - reached.count();
    }
    Levels { of }
}
