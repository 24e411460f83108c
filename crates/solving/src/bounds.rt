// Between which sets the answer sets of a program lie: its heads, and constraints that are broken for sure.
ghost use Rattle.std.specs.Prelude.{◌≡◌, ℕ, ◌<◌, false, Decides, slice_index_or};
ghost use Rattle.game.specs.Rules.{is_head};
ghost use Rattle.programs.specs.Programs.{rules_of};
ghost use Rattle.solving.specs.Bounds.{Broken};

use crate::constraints::violates_on;
use closure::row::Row;
use programs::program::Program;

// The row of all heads.
pub fn heads<const N: usize>(program: &Program<N>) -> Row<N>
    ensures { (a : ℕ) → a < N → slice_index_or result.marks a false ≡ is_head (rules_of program.now) a }
{
    let mut row = Row::clear();
    for rule in program.rules() {
        if let Some(head) = rule.head {
            row.put(head);
        }
    }
    row
}

// Has some constraint none of its negated atoms in `against`, and all its plain atoms in `from`?
pub fn breaks_constraint<const N: usize>(
    program: &Program<N>,
    against: &Row<N>,
    from: &Row<N>,
) -> bool
    ensures { Decides result (Broken (rules_of program.now) against.now.marks from.now.marks) }
{
    violates_on(program.rules(), against, from)
}
