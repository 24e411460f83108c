// A set of atoms below N, as a row of N marks.
ghost use Rattle.std.specs.Prelude.{◌≡◌, ℕ, ◌<◌, true, false, length, get_or, set, replicate, if◌then◌else◌, Decides, slice_index_or, slice_set};
ghost use Rattle.game.specs.Rules.{among};
ghost use Rattle.game.specs.Sets.{union as united};
ghost use Rattle.closure.specs.Rows.{marked, minus as less};

use crate::set::AtomSet;

#[derive(Clone, Copy, PartialEq, Eq)]
pub struct Row<const N: usize> {
    marks: [bool; N],
    ghost wide: { length marks ≡ N },
}

impl<const N: usize> Row<N> {
    // The row without a mark.
    pub fn clear() -> Row<N>
        ensures { result.marks ≡ replicate N false }
    {
        Row { marks: [false; N] }
    }

    // The set of the atoms on the list; those past the row's end are left out.
    pub fn of(atoms: &[u16]) -> Row<N>
        ensures { (k : ℕ) → k < N → slice_index_or result.marks k false ≡ among k atoms.now }
    {
        let mut row = Row::clear();
        for atom in atoms {
            row.put(*atom);
        }
        row
    }

    // The row with this mark at the place of an atom; past the row's end nothing changes.
    fn set_to(&self, atom: usize, mark: bool) -> Row<N>
        ensures { result.marks ≡ slice_set self.now.marks atom mark }
    {
        let mut row = *self;
        if atom < N {
            row.marks[atom] = mark;
        }
        row
    }

    // The set with the atom added; past the row's end nothing is.
    pub fn with(&self, atom: usize) -> Row<N>
        ensures { result.marks ≡ slice_set self.now.marks atom true }
    {
        self.set_to(atom, true)
    }

    // The set with the atom taken away; past the row's end nothing is.
    pub fn without(&self, atom: usize) -> Row<N>
        ensures { result.marks ≡ slice_set self.now.marks atom false }
    {
        self.set_to(atom, false)
    }

    // The mark at a place; past the row's end there is none.
    pub fn at(&self, i: usize) -> bool
        ensures { result ≡ slice_index_or self.now.marks i false }
    {
        self.marks.get(i).copied().unwrap_or(false)
    }

    // Is the atom in the set? No atom past the row's end is.
    pub fn has(&self, atom: u16) -> bool
        ensures { result ≡ slice_index_or self.now.marks atom false }
    {
        self.at(usize::from(atom))
    }

    // Adds the atom; past the row's end nothing changes.
    pub fn put(&mut self, atom: u16)
        ensures { self.new.marks ≡ slice_set self.old.marks atom true }
    {
        let i = usize::from(atom);
        if i < N {
            self.marks[i] = true;
        }
    }

    // How many atoms are in the set?
    pub fn count(&self) -> usize
        ensures { result ≡ marked self.now.marks }
    {
        let mut n = 0;
        for mark in &self.marks {
            if *mark {
                n += 1;
            }
        }
        n
    }

    // The row with the given mark wherever the other row has one.
    fn laid(&self, other: &Row<N>, mark: bool) -> Row<N>
        ensures { (k : ℕ) → k < N → slice_index_or result.marks k false ≡ (if get_or other.now.marks k false then mark else slice_index_or self.now.marks k false) }
    {
        let mut marks = self.marks;
        for (i, laid) in other.marks.iter().enumerate() {
            if *laid {
                marks[i] = mark;
            }
        }
        Row { marks }
    }

    pub fn union(&self, other: &Row<N>) -> Row<N>
        ensures { result.marks ≡ united self.now.marks other.now.marks }
    {
        self.laid(other, true)
    }

    // What is in this set and not in the other.
    pub fn minus(&self, other: &Row<N>) -> Row<N>
        ensures { result.marks ≡ less self.now.marks other.now.marks }
    {
        self.laid(other, false)
    }
}

impl<const N: usize> AtomSet<N> for Row<N> {
    ghost marks = { λ s. s.marks };

    fn same(&self, other: &Row<N>) -> bool {
        self == other
    }

    ghost wide = { λ s. s.wide };
}
