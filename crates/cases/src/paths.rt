// Strata by the paths of the dependency graph.
use crate::subset::{ATOMS, Subset};
use crate::textbook::Clause;

// The atoms that an atom reaches, as far as the paths are known that go on through the atoms below a bound.
#[derive(Clone, Copy)]
struct Paths {
    to: [Subset; 32],
}

impl Paths {
    // What the atom reaches.
    fn from(&self, atom: u16) -> Subset {
        self.to
            .get(usize::from(atom))
            .copied()
            .unwrap_or(Subset::numbered(0))
    }

    fn add(&mut self, atom: u16, more: Subset) {
        if let Some(to) = self.to.get_mut(usize::from(atom)) {
            *to = to.or(more);
        }
    }

    // Each atom reaches itself, and each body atom the head of its clause.
    fn of(clauses: &[Clause]) -> Paths {
        let mut paths = Paths {
            to: [Subset::numbered(0); 32],
        };
        for atom in 0..ATOMS {
            paths.add(atom, Subset::one(atom));
            paths.add(atom, heads_over(clauses, atom));
        }
        paths
    }

    // The paths with those that go on through this atom.
    fn through(self, middle: u16) -> Paths {
        let mut paths = self;
        for atom in 0..ATOMS {
            if self.from(atom).has(middle) {
                paths.add(atom, self.from(middle));
            }
        }
        paths
    }
}

// The heads of the clauses with this atom in the body.
fn heads_over(clauses: &[Clause], atom: u16) -> Subset {
    Subset::union(
        clauses
            .iter()
            .filter(|clause| clause.plain.or(clause.negated).has(atom))
            .filter_map(|clause| clause.head)
            .map(Subset::one),
    )
}

// The place of the first clause with a negated atom that its head reaches.
pub(crate) fn first_break(clauses: &[Clause]) -> Option<usize> {
    let mut paths = Paths::of(clauses);
    for middle in 0..ATOMS {
        paths = paths.through(middle);
    }
    clauses.iter().position(|clause| clause
        .head
        .is_some_and(|head| !paths.from(head).and(clause.negated).is_empty()))
}
