// The table of atoms: where each first stands, in the order of their numbers.
ghost use Rattle.std.specs.Prelude.{◌≤◌, vec_len};

use refusals::fault::Text;

pub mod methods;

// The first standing of an atom: which text, at which byte, and its name there.
#[derive(Clone, Copy)]
pub struct Atom<'a> {
    pub text: Text,
    pub at: usize,
    pub name: &'a [u8],
}

#[derive(Drop)]
pub struct Atoms<'a> {
    entries: Vec<Atom<'a>>,
    ghost few: { vec_len entries ≤ 96 },
}
