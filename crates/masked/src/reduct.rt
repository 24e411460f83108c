// The rules of a reduct whose plain atoms are in the set, over masks.
ghost use Rattle.closure.specs.Bits.{bit_row};
ghost use Rattle.game.specs.Derives.{fires as firing};
ghost use Rattle.solving.specs.Following.{PicksMore, fires_grows};

use crate::step::MaskPicks;
use closure::mask::Mask;
use programs::mask_rule::MaskRule;

// The rules of which none has a negated atom in `against`.
#[derive(Clone, Copy)]
pub(crate) struct MaskReduct {
    pub(crate) against: Mask,
}

impl MaskPicks for MaskReduct {
    ghost chosen = { λ p from r. firing (bit_row p.against.bits) from r };

    ghost picks_more = { record { grows = λ p s t within r. fires_grows (bit_row p.against.bits) s t within r } };

    fn picks(&self, rule: &MaskRule, from: Mask) -> bool {
        rule.fires(self.against, from)
    }
}
