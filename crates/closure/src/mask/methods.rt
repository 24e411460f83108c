// What is asked of a mask, as of a row.
ghost use Rattle.std.specs.Prelude.{◌≡◌, ℕ, ◌<◌, false, true, Decides, MatchOption, nat_lt, replicate, slice_index_or, slice_set};
ghost use Rattle.game.specs.Sets.{In, Within, union as united};
ghost use Rattle.closure.specs.Bits.{bit_row, length-bit_row};
ghost use Rattle.closure.specs.Rows.{minus as less};

use super::Mask;
use crate::row::Row;
use crate::set::AtomSet;

impl Mask {
    // The mask without an atom.
    pub fn clear() -> Mask
        ensures { bit_row result.bits ≡ replicate 96 false }
    {
        Mask { bits: 0 }
    }

    // The atoms below this one.
    pub fn below(atom: u16) -> Mask
        ensures { (j : ℕ) → j < 96 → slice_index_or (bit_row result.bits) j false ≡ nat_lt j atom }
    {
        Mask {
            bits: (1 << atom.min(96)) - 1,
        }
    }

    // The set that the row has.
    pub fn of(row: &Row<96>) -> Mask
        ensures { bit_row result.bits ≡ row.now.marks }
    {
        let mut set = Mask::clear();
        for atom in 0..96 {
            if row.has(atom) {
                set = set.with(atom);
            }
        }
        set
    }

    // The set as a row.
    pub fn row(self) -> Row<96>
        ensures { result.marks ≡ bit_row self.bits }
    {
        let mut row = Row::clear();
        for atom in 0..96 {
            if self.has(atom) {
                row.put(atom);
            }
        }
        row
    }

    // Is the atom in the set?
    pub fn has(self, atom: u16) -> bool
        ensures { result ≡ slice_index_or (bit_row self.bits) atom false }
    {
        atom < 96 && (self.bits >> atom) & 1 == 1
    }

    // The set with the atom added; an atom past the last is not.
    pub fn with(self, atom: u16) -> Mask
        ensures { bit_row result.bits ≡ slice_set (bit_row self.bits) atom true }
    {
        if atom >= 96 {
            return self;
        }
        Mask {
            bits: self.bits | 1 << atom,
        }
    }

    pub fn union(self, other: Mask) -> Mask
        ensures { bit_row result.bits ≡ united (bit_row self.bits) (bit_row other.bits) }
    {
        Mask {
            bits: self.bits | other.bits,
        }
    }

    // What is in this set and not in the other.
    pub fn minus(self, other: Mask) -> Mask
        ensures { bit_row result.bits ≡ less (bit_row self.bits) (bit_row other.bits) }
    {
        Mask {
            bits: self.bits & !other.bits,
        }
    }

    // Is every atom of this set in the other?
    pub fn is_within(self, other: Mask) -> bool
        ensures { Decides result (Within (bit_row self.bits) (bit_row other.bits)) }
    {
        self.bits & other.bits == self.bits
    }

    // Have the sets no atom in common?
    pub fn is_apart(self, other: Mask) -> bool
        ensures { Decides result ((a : ℕ) → In a (bit_row self.bits) → In a (bit_row other.bits) → ⊥) }
    {
        self.bits & other.bits == 0
    }

    // The lowest atom of the set.
    pub fn lowest(self) -> Option<u16>
        ensures { MatchOption result ((a : ℕ) → In a (bit_row self.bits) → ⊥) (λ a. In a (bit_row self.bits) × ((j : ℕ) → j < a → In j (bit_row self.bits) → ⊥)) }
    {
        if self.bits == 0 {
            return None;
        }
        Some(self.bits.trailing_zeros() as u16)
    }
}

impl AtomSet<96> for Mask {
    ghost marks = { λ s. bit_row s.bits };

    fn same(&self, other: &Mask) -> bool {
        self.bits == other.bits
    }

    ghost wide = { λ s. length-bit_row s.bits };
}
