// What a section tells.
ghost use Rattle.std.specs.Prelude.{◌≡◌, length};
ghost use Rattle.reading.specs.Sections.{part_of};
ghost use Rattle.programs.specs.Programs.{rules_of};

use super::Section;
use programs::program::Program;

impl Section {
    pub fn program(&self) -> &Program<96>
        ensures { rules_of result.now ≡ (part_of self.now).rules }
    {
        &self.program
    }

    // The program itself, without the places.
    pub fn into_program(self) -> Program<96>
        ensures { rules_of result ≡ (part_of self).rules }
    {
        self.program
    }

    // How many rules there are.
    pub fn count(&self) -> usize
        ensures { result ≡ length (part_of self.now).rules }
    {
        self.places.len()
    }

    // Where each rule starts, in the order of the rules.
    pub fn places(&self) -> &[usize]
        ensures { result.now ≡ (part_of self.now).places }
    {
        self.places.as_slice()
    }
}
