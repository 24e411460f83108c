// A set of atoms below N, in whatever form it is kept.
ghost use Rattle.std.specs.Prelude.{◌≡◌, ℕ, Bool, List, length, Decides};

pub trait AtomSet<const N: usize>: Copy {
    ghost marks: { Self → List Bool };

    // Have both the same atoms?
    fn same(&self, other: &Self) -> bool
        ensures { Decides result (marks self.now ≡ marks other.now) };

    ghost wide: { (s : Self) → length (marks s) ≡ N };
}
