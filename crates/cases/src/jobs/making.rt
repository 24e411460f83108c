// Jobs by dice.
use crate::dice::Dice;
use crate::jobs::job::Job;
use crate::layers::Layers;
use crate::line::{Line, Literal};
use std::alloc::{AllocError, Global};

// The atoms of a job are below this number.
pub(crate) const ATOMS: u16 = 6;

// One job in two is layered.
fn some_layers(heap: Global, dice: &mut Dice, atoms: u16) -> Result<Layers, AllocError> {
    let layered = dice.once_in(2);
    let of = (0..atoms).map(|_| dice.below(3)).collect(heap)?;
    Ok(Layers {
        of: layered.then_some(of),
    })
}

// Makes the parts of a job over the atoms below a limit.
#[derive(Drop)]
struct Maker<'a> {
    heap: Global,
    dice: &'a mut Dice,
    layers: Layers,
    atoms: u16,
}

impl Maker<'_> {
    // Up to two literals, with repeats, of the atoms that are allowed.
    fn some_literals(
        &mut self,
        head: Option<u16>,
        negated: bool,
    ) -> Result<Vec<Literal>, AllocError> {
        (0..self.dice.below(3))
            .map(|_| self.dice.some_atom(self.atoms))
            .filter(|atom| self.layers.allow(*atom, head, u16::from(negated)))
            .map(|atom| Literal { negated, atom })
            .collect(self.heap)
    }

    // A rule; once in six times it is a constraint.
    fn some_line(&mut self) -> Result<Line, AllocError> {
        let head = if self.dice.once_in(6) {
            None
        } else {
            Some(self.dice.some_atom(self.atoms))
        };
        let mut body = self.some_literals(head, false)?;
        for literal in self.some_literals(head, true)?.as_slice() {
            body.push(*literal)?;
        }
        Ok(Line { head, body })
    }

    // Each atom, once in four times.
    fn given_atoms(&mut self) -> Result<Vec<u16>, AllocError> {
        (0..self.atoms)
            .filter(|_| self.dice.once_in(4))
            .collect(self.heap)
    }
}

// A job of up to eleven rules over one to six atoms.
pub(crate) fn some_job(heap: Global, dice: &mut Dice) -> Result<Job, AllocError> {
    let atoms = 1 + dice.below(ATOMS);
    let layers = some_layers(heap, dice, atoms)?;
    let mut maker = Maker {
        heap,
        dice,
        layers,
        atoms,
    };
    let count = maker.dice.below(12);
    let lines = (0..count)
        .map(|_| -> Result<Line, AllocError> { maker.some_line() })
        .try_collect(heap)?;
    let given = maker.given_atoms()?;
    Ok(Job { lines, given })
}
