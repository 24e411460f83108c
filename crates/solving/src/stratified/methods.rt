// How a stratified program is made, and how the site is judged by it.
ghost use Rattle.std.specs.Prelude.{◌≡◌, MatchResult};
ghost use Rattle.game.specs.Strata.{FirstBreak, Stratified as IsStratified};
ghost use Rattle.programs.specs.Programs.{rules_of};

use super::Stratified;
use crate::levels::{Levels, rank};
use crate::strata::first_break;
use closure::row::Row;
use programs::program::Program;

impl<const N: usize> Stratified<N> {
    // The program with its levels, or the place of the first rule that breaks the strata.
    pub fn new(program: Program<N>) -> Result<Stratified<N>, usize>
        ensures { MatchResult result (λ s. (rules_of s.program ≡ rules_of program.entry) × IsStratified (rules_of program.entry)) (FirstBreak (rules_of program.entry)) }
    {
        if let Some(i) = first_break(&program) {
            return Err(i);
        }
        let levels = rank(&program);
        let used = levels.used(&program);
        Ok(Stratified {
            program,
            levels,
            used,
        })
    }

    // The program itself.
    pub fn program(&self) -> &Program<N>
        ensures { rules_of result.now ≡ rules_of self.now.program }
    {
        &self.program
    }

    // The levels of its atoms.
    pub fn levels(&self) -> &Levels<N>
        ensures { result.now ≡ self.now.levels }
    {
        &self.levels
    }

    // The levels that heads have.
    pub fn used(&self) -> &Row<N>
        ensures { result.now ≡ self.now.used }
    {
        &self.used
    }
}
