// A small program over few atoms, with the atoms that are given.
use crate::line::{Line, Literal};
use crate::subset::Subset;
use std::fmt;

#[derive(Drop)]
pub(crate) struct Job {
    pub(crate) lines: Vec<Line>,
    pub(crate) given: Vec<u16>,
}

impl Job {
    pub(crate) fn facts(&self) -> Subset {
        Subset::of(self.given.as_slice())
    }
}

// Writes the literals with commas between them.
fn write_literals<W: fmt::Write>(f: &mut fmt::Formatter<W>, literals: &[Literal]) -> fmt::Result {
    for (place, literal) in literals.iter().enumerate() {
        let comma = if place == 0 { "" } else { "," };
        let word = if literal.negated { "not " } else { "" };
        let atom = literal.atom;
        write!(f, "{comma} {word}x{atom}")?;
    }
    Ok(())
}

fn write_line<W: fmt::Write>(f: &mut fmt::Formatter<W>, line: &Line) -> fmt::Result {
    if let Some(head) = line.head {
        write!(f, "x{head} ")?;
    }
    write!(f, ":-")?;
    write_literals(f, line.body.as_slice())?;
    write!(f, ". ")
}

impl fmt::Display for Job {
    fn fmt<W: fmt::Write>(&self, f: &mut fmt::Formatter<W>) -> fmt::Result {
        for line in self.lines.as_slice() {
            write_line(f, line)?;
        }
        write!(f, "given")?;
        for atom in self.given.as_slice() {
            write!(f, " x{atom}")?;
        }
        Ok(())
    }
}
