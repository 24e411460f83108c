// How a program is made, and what it tells.
ghost use Rattle.std.specs.Prelude.{◌≡◌, true, false, MatchOption};
ghost use Rattle.game.specs.Rules.{stands};
ghost use Rattle.programs.specs.Limits.{all_fit, fits};
ghost use Rattle.programs.specs.Model.{models};
ghost use Rattle.programs.specs.Programs.{rules_of};

use super::Program;
use crate::masks::Masks;
use crate::rule::Rule;

// Does every rule keep the limits?
fn all_fit(rules: &[Rule], limit: usize) -> bool
    ensures { result ≡ all_fit limit (models rules.now) }
{
    rules.iter().all(|rule| rule.fits(limit))
}

// Does the atom stand in some rule?
fn some_mentions(rules: &[Rule], atom: u16) -> bool
    ensures { result ≡ stands atom (models rules.now) }
{
    rules.iter().any(|rule| rule.mentions(atom))
}

impl<const N: usize> Program<N> {
    // The rules as a program, or none where they break a limit.
    pub fn new(rules: Vec<Rule>) -> Option<Program<N>>
        ensures { MatchOption result (fits N (models rules.items) ≡ false) (λ p. rules_of p ≡ models rules.items) }
    {
        if rules.len() > 256 {
            return None;
        }
        if !all_fit(rules.as_slice(), N) {
            return None;
        }
        let masks = Masks::of(rules.as_slice());
        Some(Program { rules, masks })
    }

    // The rules in the order of the text.
    pub fn rules(&self) -> &[Rule]
        ensures { models result.now ≡ rules_of self.now }
    {
        self.rules.as_slice()
    }

    // The rules as masks.
    pub fn masks(&self) -> &Masks
        ensures { result.now ≡ self.now.masks }
    {
        &self.masks
    }

    // Does the atom stand anywhere in the program?
    pub fn mentions(&self, atom: u16) -> bool
        ensures { result ≡ stands atom (rules_of self.now) }
    {
        some_mentions(self.rules.as_slice(), atom)
    }
}
