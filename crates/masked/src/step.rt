// A growing step by which the heads of the rules that are picked follow, over masks.
ghost use Rattle.std.specs.Prelude.{◌≡◌, Bool, true, List};
ghost use Rattle.closure.specs.Bits.{bit_row};
ghost use Rattle.game.specs.Rules.{Rule as Meant};
ghost use Rattle.programs.specs.Limits.{rule_fits};
ghost use Rattle.programs.specs.Listed.{in_rows};
ghost use Rattle.programs.specs.MaskRules.{mask_rule};
ghost use Rattle.programs.specs.Programs.{rules_of};
ghost use Rattle.solving.specs.Following.{PicksMore, picked_grows};
ghost use Rattle.solving.specs.Tests.{headed_by};

use closure::mask::Mask;
use closure::step::Step;
use programs::mask_rule::MaskRule;
use programs::program::Program;

// What picks rules by a set, where masks tell the rule; a larger set picks no fewer.
pub(crate) trait MaskPicks {
    ghost chosen: { Self → List Bool → Meant → Bool };

    ghost picks_more: { PicksMore chosen };

    fn picks(&self, rule: &MaskRule, from: Mask) -> bool
        ensures { (r : Meant) → rule_fits 96 r ≡ true → mask_rule rule.now ≡ in_rows r → result ≡ chosen self.now (bit_row from.bits) r };
}

// The rules of the program that are picked.
#[derive(Drop)]
pub(crate) struct MaskPicked<'a, P> {
    pub(crate) program: &'a Program<96>,
    pub(crate) picker: P,
}

impl<'a, P: MaskPicks> Step<96, Mask> for MaskPicked<'a, P> {
    ghost follows = { λ s from a. headed_by (P.chosen s.picker from) (rules_of s.program.now) a };

    ghost laws = { record { grows = λ s a b wide wide' within i. picked_grows P.picks_more s.picker (rules_of s.program.now) a b within i } };

    fn mark(&self, from: &Mask, out: &mut Mask) {
        for rule in self.program.masks().rules() {
            let head = rule.one();
            if !head.is_within(*out) && self.picker.picks(rule, *from) {
                *out = out.union(head);
            }
        }
    }
}
