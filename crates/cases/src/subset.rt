// Sets of the atoms 0 to 31 as numbers: atom k is in the set where bit k stands.

ghost use Rattle.std.specs.Iterator.{IsFinite};

// The atoms of a set are below this number.
pub(crate) const ATOMS: u16 = 32;

#[derive(Clone, Copy, PartialEq, Eq)]
pub(crate) struct Subset(u32);

impl Subset {
    pub(crate) fn numbered(number: u32) -> Subset {
        Subset(number)
    }

    pub(crate) fn of(atoms: &[u16]) -> Subset {
        Subset::union(atoms.iter().map(|atom| Subset::one(*atom)))
    }

    // All the atoms of some sets.
    pub(crate) fn union<I: Iterator<Item = Subset> + Drop>(sets: I) -> Subset
        requires { I.can_next sets × IsFinite (I.remaining sets) }
    {
        sets.fold(Subset(0), Subset::or)
    }

    pub(crate) fn one(atom: u16) -> Subset {
        Subset(1u32.wrapping_shl(u32::from(atom)))
    }

    pub(crate) fn number(self) -> u32 {
        self.0
    }

    pub(crate) fn has(self, atom: u16) -> bool {
        Subset::one(atom).within(self)
    }

    pub(crate) fn or(self, other: Subset) -> Subset {
        Subset(self.0 | other.0)
    }

    pub(crate) fn and(self, other: Subset) -> Subset {
        Subset(self.0 & other.0)
    }

    pub(crate) fn within(self, other: Subset) -> bool {
        self.0 & other.0 == self.0
    }

    pub(crate) fn is_empty(self) -> bool {
        self.0 == 0
    }

    // How many sets are within this one, where it has fewer than 32 atoms.
    pub(crate) fn parts(self) -> u32 {
        1u32.wrapping_shl(self.0.count_ones())
    }

    // The set within this one whose number, written over this set's atoms alone, is the given one.
    pub(crate) fn part(self, number: u32) -> Subset {
        let mut digits = number;
        let mut part = Subset(0);
        for atom in (0..ATOMS).filter(|atom| self.has(*atom)) {
            if digits & 1 == 1 {
                part = part.or(Subset::one(atom));
            }
            digits >>= 1;
        }
        part
    }
}
