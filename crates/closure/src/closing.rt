// The smallest set around a given one that is closed under a step, in whole rounds.
ghost use Rattle.game.specs.Derives.{SmallestClosed};
ghost use Rattle.closure.specs.Steps.{Rounds};

use crate::set::AtomSet;
use crate::step::Step;

pub fn closure<const N: usize, T: AtomSet<N>, S: Step<N, T>>(step: &S, start: &T) -> T
    ensures smallest { SmallestClosed N (S.follows step.now) (T.marks start.now) (T.marks result) }
    ensures rounds { Rounds N (S.follows step.now) (T.marks start.now) (T.marks result) }
{
    let mut set = *start;
    loop {
        let mut next = set;
        step.mark(&set, &mut next);
        if next.same(&set) {
            return set;
        }
        set = next;
    }
}
