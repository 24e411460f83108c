// Atoms numbered by first appearance.
use crate::line::{Line, Literal};
use std::alloc::{AllocError, Global};

// The numbers that are given so far.
#[derive(Drop)]
pub(crate) struct Numbering {
    // The number of each name that has appeared.
    of: [Option<u16>; 32],
    next: u16,
}

impl Numbering {
    pub(crate) fn new() -> Numbering {
        Numbering {
            of: [None; 32],
            next: 0,
        }
    }

    // The name's number: the next one where it is new.
    fn number(&mut self, name: u16) -> u16 {
        let known = self.of.get(usize::from(name)).copied().flatten();
        let number = known.unwrap_or(self.next);
        if known.is_none() {
            self.next = self.next.saturating_add(1);
        }
        if let Some(slot) = self.of.get_mut(usize::from(name)) {
            *slot = Some(number);
        }
        number
    }

    // The head comes before the body.
    fn line(&mut self, heap: Global, line: &Line) -> Result<Line, AllocError> {
        let head = line.head.map(|name| self.number(name));
        let body = line
            .body
            .iter()
            .map(|literal| Literal {
                negated: literal.negated,
                atom: self.number(literal.atom),
            })
            .collect(heap)?;
        Ok(Line { head, body })
    }

    // The rules over the atoms' numbers. A head comes before its body, and the body's literals come in their order.
    pub(crate) fn lines(&mut self, heap: Global, lines: &[Line]) -> Result<Vec<Line>, AllocError> {
        lines
            .iter()
            .map(|line| -> Result<Line, AllocError> { self.line(heap, line) })
            .try_collect(heap)
    }
}
