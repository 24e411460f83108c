// A game: a side and three texts.
use crate::line::Line;
use crate::subset::Subset;
use loading::sources::Sources;
use std::fmt;

// Where a text is broken, and the number of the question that it fails.
#[derive(Clone, Copy)]
pub(crate) struct Damage {
    pub(crate) cause: u8,
    pub(crate) byte: usize,
}

// A text as rules and as bytes.
#[derive(Drop)]
pub(crate) struct Text {
    // The rules, over the numbers of names.
    pub(crate) lines: Vec<Line>,
    // The text as it is written.
    pub(crate) written: String,
    // The byte at which each rule starts.
    pub(crate) places: Vec<usize>,
    pub(crate) damage: Option<Damage>,
}

impl Text {
    // The names that stand in the text.
    pub(crate) fn names(&self) -> Subset {
        Subset::union(self.lines.iter().map(|line| line.atoms()))
    }
}

// What a load is handed.
#[derive(Drop)]
pub(crate) struct Game {
    pub(crate) side: u8,
    pub(crate) plan: Text,
    pub(crate) faults: Text,
    pub(crate) site: Text,
}

impl Game {
    // The bytes of the three texts.
    pub(crate) fn sources(&self) -> Sources<'_> {
        Sources {
            plan: self.plan.written.as_bytes(),
            faults: self.faults.written.as_bytes(),
            site: self.site.written.as_bytes(),
        }
    }
}

impl fmt::Display for Game {
    fn fmt<W: fmt::Write>(&self, f: &mut fmt::Formatter<W>) -> fmt::Result {
        let side = self.side;
        let plan = self.plan.written.as_str();
        let faults = self.faults.written.as_str();
        let site = self.site.written.as_str();
        writeln!(f, "side {side}")?;
        writeln!(f, "plan text:\n{plan}")?;
        writeln!(f, "fault text:\n{faults}")?;
        write!(f, "site text:\n{site}")
    }
}
