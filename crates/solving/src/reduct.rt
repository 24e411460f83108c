// The rules of a reduct whose plain atoms are in the set.
ghost use Rattle.game.specs.Derives.{fires as firing};
ghost use Rattle.solving.specs.Following.{PicksMore, fires_grows};

use crate::literals::fires;
use crate::picking::Picks;
use closure::row::Row;
use programs::rule::Rule;

// The rules of which none has a negated atom in `against`.
#[derive(Clone, Copy)]
pub(crate) struct Reduct<'a, const N: usize> {
    pub(crate) against: &'a Row<N>,
}

impl<'a, const N: usize> Picks<N> for Reduct<'a, N> {
    ghost chosen = { λ p from r. firing p.against.now.marks from r };

    ghost picks_more = { record { grows = λ p s t within r. fires_grows p.against.now.marks s t within r } };

    fn picks(&self, rule: &Rule, from: &Row<N>) -> bool {
        fires(rule, self.against, from)
    }
}
