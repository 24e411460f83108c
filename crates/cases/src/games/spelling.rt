// Texts as they are written, by dice: blanks and comments where they may stand, and at times something that may not.
use crate::dice::Dice;
use crate::games::names::Name;
use crate::games::texts::{Damage, Text};
use crate::line::{Line, Literal};
use std::alloc::{AllocError, Global};

// What may not stand where a rule may start: the number of the question that it fails, and how far behind its first byte.
#[derive(Clone, Copy)]
struct Flaw {
    cause: u8,
    written: &'static str,
    behind: usize,
}

// A flaw of each kind that a text can have where a rule may start.
const FLAWS: [Flaw; 9] = [
    Flaw {
        cause: 3,
        written: "A0.",
        behind: 0,
    },
    Flaw {
        cause: 3,
        written: "a0 : - a1.",
        behind: 3,
    },
    Flaw {
        cause: 3,
        written: "a0 :- a1_0, 0a.",
        behind: 12,
    },
    Flaw {
        cause: 4,
        written: ":- a, a23456789012345678901234567890123.",
        behind: 6,
    },
    Flaw {
        cause: 5,
        written: ".",
        behind: 0,
    },
    Flaw {
        cause: 5,
        written: "a0 a1.",
        behind: 3,
    },
    Flaw {
        cause: 5,
        written: "not a0.",
        behind: 0,
    },
    Flaw {
        cause: 5,
        written: "a0 :- not not a1.",
        behind: 10,
    },
    Flaw {
        cause: 6,
        written: ":-a,a,a,a,a,a,a,a,a,a,a,a,a,a,a,a,a.",
        behind: 34,
    },
];

// What may not stand at the end of a text.
const CUT: &str = "a0 :- a1, not";

// Writes one text.
#[derive(Drop)]
struct Pen<'a> {
    dice: &'a mut Dice,
    text: String,
    places: Vec<usize>,
}

impl Pen<'_> {
    // What may stand between two tokens.
    fn blank(&mut self) -> Result<(), AllocError> {
        let blank = match self.dice.below(16) {
            0 => "\n",
            1 => "\t",
            2 => "\r\n ",
            3 => "% a0 :- b0.\n",
            4..10 => " ",
            _ => "",
        };
        self.text.push_str(blank)
    }

    // The token, and what may stand behind it.
    fn token(&mut self, token: &str) -> Result<(), AllocError> {
        self.text.push_str(token)?;
        self.blank()
    }

    // The name of this number.
    fn name(&mut self, name: u16) -> Result<(), AllocError> {
        let name = Name(name);
        write!(self.text, "{name}")?;
        self.blank()
    }

    // The body, with commas between the literals.
    fn literals(&mut self, body: &[Literal]) -> Result<(), AllocError> {
        for (place, literal) in body.iter().enumerate() {
            if place != 0 {
                self.token(",")?;
            }
            if literal.negated {
                self.token("not ")?;
            }
            self.name(literal.atom)?;
        }
        Ok(())
    }

    // Notes where the rule starts.
    fn line(&mut self, line: &Line) -> Result<(), AllocError> {
        self.places.push(self.text.len())?;
        if let Some(head) = line.head {
            self.name(head)?;
        }
        if line.head.is_none() || !line.body.is_empty() || self.dice.once_in(2) {
            self.token(":-")?;
        }
        self.literals(line.body.as_slice())?;
        self.token(".")
    }

    // Writes one of the flaws.
    fn flaw(&mut self) -> Result<Option<Damage>, AllocError> {
        let start = self.text.len();
        let Some(flaw) = FLAWS.get(usize::from(self.dice.below(9))) else {
            return Ok(None);
        };
        self.token(flaw.written)?;
        Ok(Some(Damage {
            cause: flaw.cause,
            byte: start.saturating_add(flaw.behind),
        }))
    }

    // Ends the text in the midst of a rule.
    fn cut(&mut self) -> Result<Damage, AllocError> {
        self.text.push_str(CUT)?;
        Ok(Damage {
            cause: 5,
            byte: self.text.len(),
        })
    }

    // Writes the rules, with a flaw before the one at this place, or a cut where there is none at this place.
    fn lines(
        &mut self,
        lines: &[Line],
        broken: Option<usize>,
    ) -> Result<Option<Damage>, AllocError> {
        let mut damage = None;
        self.blank()?;
        for (place, line) in lines.iter().enumerate() {
            if broken == Some(place) {
                damage = self.flaw()?;
            }
            self.line(line)?;
        }
        if damage.is_none() && broken.is_some() {
            damage = Some(self.cut()?);
        }
        Ok(damage)
    }
}

// The text of these rules; where a place is given, it is broken there, or at its end.
pub(crate) fn spelled(
    heap: Global,
    lines: Vec<Line>,
    broken: Option<usize>,
    dice: &mut Dice,
) -> Result<Text, AllocError> {
    let mut pen = Pen {
        dice,
        text: String::new(heap),
        places: Vec::new(heap),
    };
    let damage = pen.lines(lines.as_slice(), broken)?;
    Ok(Text {
        lines,
        written: pen.text,
        places: pen.places,
        damage,
    })
}
