// How the table grows, and what it tells.
ghost use Rattle.std.specs.Prelude.{◌≡◌, [], length, position};
ghost use Rattle.std.specs.Str.{bytes_eq};
ghost use Rattle.reading.specs.Tables.{standings_of, Enters};

use super::{Atom, Atoms};
use refusals::fault::Fault;
use std::alloc::Global;

const MOST_ATOMS: usize = 96;

impl<'a> Atoms<'a> {
    pub fn new(heap: Global) -> Atoms<'a>
        ensures { standings_of result ≡ [] }
    {
        Atoms {
            entries: Vec::new(heap),
        }
    }

    // The number of the atom of this name, where it stands in the table.
    fn find(&self, name: &[u8]) -> Option<usize>
        ensures { result ≡ position (λ a. bytes_eq a.name.now name.now) self.now.entries.items }
    {
        self.entries.iter().position(|atom| atom.name == name)
    }

    // The number of the atom of this name; it joins the table where it is new.
    pub(crate) fn enter(&mut self, atom: Atom<'a>) -> Result<u16, Fault>
        ensures { Enters atom.entry.text atom.entry.at atom.entry.name.now (standings_of self.old) (standings_of self.new) result }
    {
        if let Some(number) = self.find(atom.name) {
            return Ok(number as u16);
        }
        let number = self.entries.len();
        if number >= MOST_ATOMS {
            return Err(Fault::ManyAtoms {
                text: atom.text,
                at: atom.at,
            });
        }
        self.entries.push(atom)?;
        Ok(number as u16)
    }

    // How many atoms there are.
    pub fn count(&self) -> usize
        ensures { result ≡ length (standings_of self.now) }
    {
        self.entries.len()
    }

    // The entries in the order of their numbers.
    pub fn entries(&self) -> &[Atom<'a>]
        ensures { result.now ≡ self.now.entries.items }
    {
        self.entries.as_slice()
    }
}
