// A stratified program with its levels.
ghost use Rattle.std.specs.Prelude.{◌≡◌, ℕ, true};
ghost use Rattle.game.specs.Rules.{is_head};
ghost use Rattle.game.specs.Sets.{In};
ghost use Rattle.programs.specs.Limits.{all_below};
ghost use Rattle.programs.specs.Programs.{rules_of};
ghost use Rattle.solving.specs.Levels.{level_in, leveled};

use crate::levels::Levels;
use closure::row::Row;
use programs::program::Program;

pub mod judging;
pub mod methods;

// Each head stands no lower than its plain body atoms and above its negated ones, and every level is below N.
#[derive(Drop)]
pub struct Stratified<const N: usize> {
    program: Program<N>,
    levels: Levels<N>,
    // The levels that heads have; on the others nothing is settled.
    used: Row<N>,
    ghost fit: { leveled levels.of (rules_of program) ≡ true },
    ghost low: { all_below N levels.of ≡ true },
    ghost all_used: { (a : ℕ) → is_head (rules_of program) a ≡ true → In (level_in levels.of a) used.marks },
}
