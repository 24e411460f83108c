// What a text gives: its rules, and where each rule starts.
ghost use Rattle.std.specs.Prelude.{◌≡◌, length};
ghost use Rattle.programs.specs.Programs.{rules_of};

use programs::program::Program;

pub mod methods;

#[derive(Drop)]
pub struct Section {
    pub(crate) program: Program<96>,
    // In the order of the rules; a head stands where its rule starts.
    pub(crate) places: Vec<usize>,
    ghost placed: { length places.items ≡ length (rules_of program) },
}
