// A program: rules that keep the limits, over atoms below N.
ghost use Rattle.std.specs.Prelude.{◌≡◌, true};
ghost use Rattle.programs.specs.Limits.{fits};
ghost use Rattle.programs.specs.Masked.{AsMasks};
ghost use Rattle.programs.specs.Model.{models};

use crate::masks::Masks;
use crate::rule::Rule;

pub mod methods;

// The masks are those of the rules, for what is asked of them over and over.
#[derive(Drop)]
pub struct Program<const N: usize> {
    rules: Vec<Rule>,
    masks: Masks,
    ghost kept: { fits N (models rules.items) ≡ true },
    ghost same: { AsMasks (models rules.items) masks.rules masks.count masks.heads },
}
