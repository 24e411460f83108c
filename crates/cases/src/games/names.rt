// The names of a game's atoms, which are numbered from 0: a0 to a11 in the plan text, then b0 to b11 in the fault text, then
// c0 to c7 in the site text.
use std::fmt;

// There are so many names.
pub(crate) const NAMES: u16 = 32;

// Which of the three texts.
#[derive(Clone, Copy, PartialEq, Eq)]
pub(crate) enum Kind {
    Plan,
    Faults,
    Site,
}

impl Kind {
    // The number of the text's first name.
    pub(crate) fn first(self) -> u16 {
        match self {
            Kind::Plan => 0,
            Kind::Faults => 12,
            Kind::Site => 24,
        }
    }

    // A text has at most so many heads. It has names for a few atoms more.
    pub(crate) fn most_heads(self) -> u16 {
        match self {
            Kind::Plan | Kind::Faults => 10,
            Kind::Site => 6,
        }
    }

    // The name at this place among the text's own.
    pub(crate) fn name(self, place: u16) -> u16 {
        self.first().saturating_add(place)
    }
}

// The name of this number, as it is written.
#[derive(Clone, Copy)]
pub(crate) struct Name(pub(crate) u16);

impl fmt::Display for Name {
    fn fmt<W: fmt::Write>(&self, f: &mut fmt::Formatter<W>) -> fmt::Result {
        let (letter, kind) = match self.0 {
            0..12 => ('a', Kind::Plan),
            12..24 => ('b', Kind::Faults),
            _ => ('c', Kind::Site),
        };
        let place = self.0.saturating_sub(kind.first());
        write!(f, "{letter}{place}")
    }
}
