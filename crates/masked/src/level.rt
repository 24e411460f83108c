// The rules for heads of one level whose plain atoms are in the set, over masks.
ghost use Rattle.std.specs.Prelude.{◌&&◌};
ghost use Rattle.closure.specs.Bits.{bit_row};
ghost use Rattle.game.specs.Derives.{fires as firing};
ghost use Rattle.solving.specs.Following.{PicksMore, level_grows};
ghost use Rattle.solving.specs.Levels.{head_at};

use crate::step::MaskPicks;
use closure::mask::Mask;
use programs::mask_rule::MaskRule;
use solving::levels::Levels;

// Heads of this level, with negated atoms looked up in `against`.
#[derive(Clone, Copy)]
pub(crate) struct MaskLevel<'a> {
    pub(crate) levels: &'a Levels<96>,
    pub(crate) level: usize,
    pub(crate) against: Mask,
}

impl MaskPicks for MaskLevel<'_> {
    ghost chosen = { λ p from r. head_at p.levels.now.of p.level r.head && firing (bit_row p.against.bits) from r };

    ghost picks_more = { record { grows = λ p s t within r. level_grows p.levels.now.of p.level (bit_row p.against.bits) s t within r } };

    fn picks(&self, rule: &MaskRule, from: Mask) -> bool {
        match rule.head {
            None => false,
            Some(head) => self.levels.of(head) == self.level && rule.fires(self.against, from),
        }
    }
}
