// The rules for heads of one level whose plain atoms are in the set.
ghost use Rattle.std.specs.Prelude.{◌*◌, ◌<◌, ◌^◌, ◌&&◌};
ghost use Rattle.game.specs.Derives.{fires as firing};
ghost use Rattle.solving.specs.Following.{PicksMore, level_grows};
ghost use Rattle.solving.specs.Levels.{head_at};

use crate::levels::Levels;
use crate::literals::fires;
use crate::picking::Picks;
use closure::row::Row;
use programs::rule::Rule;

// Heads of this level, with negated atoms looked up in `against`; the levels fit in memory.
#[derive(Clone, Copy)]
pub(crate) struct AtLevel<'a, const N: usize> {
    pub(crate) levels: &'a Levels<N>,
    pub(crate) level: usize,
    pub(crate) against: &'a Row<N>,
    ghost room: { 8 * N < 2 ^ 63 },
}

impl<'a, const N: usize> Picks<N> for AtLevel<'a, N> {
    ghost chosen = { λ p from r. head_at p.levels.now.of p.level r.head && firing p.against.now.marks from r };

    ghost picks_more = { record { grows = λ p s t within r. level_grows p.levels.now.of p.level p.against.now.marks s t within r } };

    fn picks(&self, rule: &Rule, from: &Row<N>) -> bool {
        match rule.head {
            None => false,
            Some(head) => self.levels.of(head) == self.level && fires(rule, self.against, from),
        }
    }
}
