// What a load leaves: a side, and the programs of the three texts.
ghost use Rattle.std.specs.Prelude.{◌≡◌, ℕ, true, ◌≢◌};
ghost use Rattle.game.specs.Rules.{is_head};
ghost use Rattle.programs.specs.Programs.{rules_of};

use loading::side::Side;
use programs::program::Program;
use solving::stratified::Stratified;

// No head of the plan text is a head of the fault text.
#[derive(Drop)]
pub(crate) struct Loaded {
    pub(crate) side: Side,
    pub(crate) plan: Program<96>,
    pub(crate) faults: Program<96>,
    pub(crate) site: Stratified<96>,
    ghost apart: { (a : ℕ) → is_head (rules_of plan) a ≡ true → is_head (rules_of faults) a ≢ true },
}
