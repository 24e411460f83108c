// A step tells which atoms follow from a set of atoms; what follows from a set follows from any larger one.
ghost use Rattle.std.specs.Prelude.{ℕ, Bool, List};
ghost use Rattle.closure.specs.Steps.{Grows, Marked};

use crate::set::AtomSet;

pub trait Step<const N: usize, T: AtomSet<N>> {
    ghost follows: { Self → List Bool → ℕ → Bool };

    ghost laws: { Grows N follows };

    // Adds to `out` every atom that follows from `from`, and no other.
    fn mark(&self, from: &T, out: &mut T)
        ensures { Marked N (follows self.now (T.marks from.now)) (T.marks out.old) (T.marks out.new) };
}
