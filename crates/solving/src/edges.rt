// The dependency edges: from each body atom, plain or negated, to its rule's head.
ghost use Rattle.std.specs.Prelude.{◌<◌};
ghost use Rattle.programs.specs.Programs.{rules_of};
ghost use Rattle.solving.specs.Following.{PicksMore, touches_grows};
ghost use Rattle.solving.specs.Reached.{Reached};
ghost use Rattle.solving.specs.Tests.{touches};

use crate::literals::some_in;
use crate::picking::{Picked, Picks};
use closure::closing::closure;
use closure::row::Row;
use programs::program::Program;
use programs::rule::Rule;

// The rules of which some body atom is in the set.
#[derive(Clone, Copy)]
struct Edges;

impl<const N: usize> Picks<N> for Edges {
    ghost chosen = { λ _ from r. touches from r };

    ghost picks_more = { record { grows = λ _ s t within r. touches_grows s t within r } };

    fn picks(&self, rule: &Rule, from: &Row<N>) -> bool {
        some_in(from, rule.plain.as_slice()) || some_in(from, rule.negated.as_slice())
    }
}

// The atoms that can be reached from the atom in zero or more edges.
pub(crate) fn reach<const N: usize>(program: &Program<N>, atom: usize) -> Row<N>
    requires { atom < N }
    ensures { Reached (rules_of program.now) atom result.marks }
{
    closure(
        &Picked {
            program,
            picker: Edges,
        },
        &Row::clear().with(atom),
    )
}
