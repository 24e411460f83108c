// How masks are made of rules.
ghost use Rattle.std.specs.Prelude.{◌≡◌, ◌≤◌, length, take};
ghost use Rattle.closure.specs.Bits.{bit_row};
ghost use Rattle.game.specs.Rules.{is_head};
ghost use Rattle.game.proofs.Rows.{row};
ghost use Rattle.programs.specs.Masked.{AsMasks};
ghost use Rattle.programs.specs.Model.{models};

use super::{Masks, ROOM};
use crate::mask_rule::MaskRule;
use crate::rule::Rule;
use closure::mask::Mask;

// The set of the heads.
fn heads_of(rules: &[Rule]) -> Mask
    ensures { bit_row result.bits ≡ row 96 (is_head (models rules.now)) }
{
    let mut set = Mask::clear();
    for rule in rules {
        if let Some(head) = rule.head {
            set = set.with(head);
        }
    }
    set
}

impl Masks {
    pub(crate) fn of(rules: &[Rule]) -> Masks
        requires { length rules.now ≤ 256 }
        ensures { AsMasks (models rules.now) result.rules result.count result.heads }
    {
        let mut masks = [MaskRule::empty(); ROOM];
        for (place, rule) in rules.iter().enumerate() {
            masks[place] = MaskRule::of(rule);
        }
        Masks {
            rules: masks,
            count: rules.len(),
            heads: heads_of(rules),
        }
    }

    // The rules.
    pub fn rules(&self) -> &[MaskRule]
        ensures { result.now ≡ take self.now.count self.now.rules }
    {
        &self.rules[0..self.count]
    }

    // The heads.
    pub fn heads(&self) -> Mask
        ensures { result ≡ self.now.heads }
    {
        self.heads
    }
}
