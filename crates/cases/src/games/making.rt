// The rules of a text by dice.
use crate::dice::Dice;
use crate::games::names::{Kind, NAMES};
use crate::layers::Layers;
use crate::line::{Line, Literal};
use std::alloc::{AllocError, Global};

// How many heads each text has.
#[derive(Clone, Copy)]
pub(crate) struct Sizes {
    pub(crate) plan: u16,
    pub(crate) faults: u16,
    pub(crate) site: u16,
}

// Mostly few heads, at times up to the most.
fn some_size(dice: &mut Dice, kind: Kind) -> u16 {
    if dice.once_in(3) {
        dice.some_atom(kind.most_heads().saturating_add(1))
    } else {
        2 + dice.below(5)
    }
}

impl Sizes {
    // Each by dice.
    pub(crate) fn some(dice: &mut Dice) -> Sizes {
        Sizes {
            plan: some_size(dice, Kind::Plan),
            faults: some_size(dice, Kind::Faults),
            site: some_size(dice, Kind::Site),
        }
    }

    // The heads of this text.
    fn of(&self, kind: Kind) -> u16 {
        match kind {
            Kind::Plan => self.plan,
            Kind::Faults => self.faults,
            Kind::Site => self.site,
        }
    }
}

// The site text's own atoms are in three layers over those of the other texts; once in six times there are none.
fn some_layers(heap: Global, dice: &mut Dice, kind: Kind) -> Result<Layers, AllocError> {
    if kind != Kind::Site || dice.once_in(6) {
        return Ok(Layers { of: None });
    }
    let of = (0..NAMES)
        .map(|name| if name < kind.first() {
            0
        } else {
            1 + dice.below(3)
        })
        .collect(heap)?;
    Ok(Layers { of: Some(of) })
}

// Makes the rules of one text.
#[derive(Drop)]
pub(crate) struct Maker<'a> {
    heap: Global,
    dice: &'a mut Dice,
    kind: Kind,
    sizes: Sizes,
    layers: Layers,
}

impl Maker<'_> {
    // A maker for this text of a game.
    pub(crate) fn new(
        heap: Global,
        dice: &mut Dice,
        kind: Kind,
        sizes: Sizes,
    ) -> Result<Maker<'_>, AllocError> {
        let layers = some_layers(heap, dice, kind)?;
        Ok(Maker {
            heap,
            dice,
            kind,
            sizes,
            layers,
        })
    }

    // The text's head at this place, where the last is followed by the first.
    fn head(&self, place: u16) -> u16 {
        let heads = self.sizes.of(self.kind);
        self.kind.name(if heads == 0 { 0 } else { place % heads })
    }

    // Once in 60 times any name at all, which may be a head that is taken.
    fn some_head(&mut self) -> u16 {
        if self.dice.once_in(60) {
            return self.dice.below(NAMES);
        }
        let place = self.dice.some_atom(self.sizes.of(self.kind));
        self.head(place)
    }

    // Mostly an atom of this text or of one before it: a head, or the one name after the heads; once in 150 times any name.
    fn some_atom(&mut self) -> u16 {
        if self.dice.once_in(150) {
            return self.dice.below(NAMES);
        }
        let kind = match (self.kind, self.dice.below(4)) {
            (Kind::Faults, 0 | 1) | (Kind::Site, 0) => Kind::Plan,
            (Kind::Site, 1) => Kind::Faults,
            (kind, _) => kind,
        };
        let place = self.dice.some_atom(self.sizes.of(kind).saturating_add(1));
        kind.name(place)
    }

    // Plain or negated.
    fn some_literal(&mut self) -> Literal {
        let negated = self.dice.once_in(2);
        let atom = self.some_atom();
        Literal { negated, atom }
    }

    // May the literal stand in a rule for this head?
    fn allows(&self, head: Option<u16>, literal: Literal) -> bool {
        let above = u16::from(literal.negated);
        self.layers.allow(literal.atom, head, above)
    }

    // Mostly one to three literals, with repeats, as far as they are allowed.
    fn some_body(&mut self, head: Option<u16>) -> Result<Vec<Literal>, AllocError> {
        let mut body = Vec::new(self.heap);
        let count = if self.dice.once_in(8) {
            0
        } else {
            1 + self.dice.below(3)
        };
        for _ in 0..count {
            let literal = self.some_literal();
            if self.allows(head, literal) {
                body.push(literal)?;
            }
        }
        Ok(body)
    }

    // A rule; once in five times it is a constraint.
    fn some_line(&mut self) -> Result<Line, AllocError> {
        let head = if self.dice.once_in(5) {
            None
        } else {
            Some(self.some_head())
        };
        let body = self.some_body(head)?;
        Ok(Line { head, body })
    }

    // So many rules more.
    fn add_lines(&mut self, lines: &mut Vec<Line>, count: u16) -> Result<(), AllocError> {
        for _ in 0..count {
            lines.push(self.some_line()?)?;
        }
        Ok(())
    }

    // A choice of one among so many heads: a rule for each, which derives it unless another one is there.
    fn add_choice(&self, lines: &mut Vec<Line>, first: u16, size: u16) -> Result<(), AllocError> {
        for member in 0..size {
            let body = (0..size)
                .filter(|other| *other != member)
                .map(|other| self.head(first.saturating_add(other)))
                .map(|atom| Literal {
                    negated: true,
                    atom,
                })
                .collect(self.heap)?;
            let head = Some(self.head(first.saturating_add(member)));
            lines.push(Line { head, body })?;
        }
        Ok(())
    }

    // Choices among two heads or three, which are one after the other.
    fn add_choices(&mut self, lines: &mut Vec<Line>) -> Result<(), AllocError> {
        let mut first = 0u16;
        for _ in 0..self.sizes.of(self.kind) / 2 {
            let size = if self.dice.once_in(4) { 3 } else { 2 };
            if !self.dice.once_in(5) {
                self.add_choice(lines, first, size)?;
            }
            first = first.saturating_add(size);
        }
        Ok(())
    }

    // Two heads that support each other, where the layers allow it.
    fn add_loop(&mut self, lines: &mut Vec<Line>) -> Result<(), AllocError> {
        let one = self.some_head();
        let other = self.some_head();
        for (head, atom) in [(one, other), (other, one)] {
            let literal = Literal {
                negated: false,
                atom,
            };
            if self.allows(Some(head), literal) {
                lines.push(Line {
                    head: Some(head),
                    body: vec![in self.heap; literal]?,
                })?;
            }
        }
        Ok(())
    }

    // One literal more in some of the rules, where the layers allow it.
    fn sprinkle(&mut self, lines: &mut Vec<Line>) -> Result<(), AllocError> {
        for line in lines.iter_mut() {
            let literal = self.some_literal();
            if self.dice.once_in(6) && self.allows(line.head, literal) {
                line.body.push(literal)?;
            }
        }
        Ok(())
    }

    // The rules of a text, at times none. Those of the site text are stratified where there are layers, and hold no choices.
    pub(crate) fn lines(&mut self) -> Result<Vec<Line>, AllocError> {
        let mut lines = Vec::new(self.heap);
        if self.dice.once_in(15) {
            return Ok(lines);
        }
        let most = if self.kind == Kind::Site { 6 } else { 2 };
        let count = self.dice.below(most);
        self.add_lines(&mut lines, count)?;
        if self.kind != Kind::Site {
            self.add_choices(&mut lines)?;
        }
        if self.dice.once_in(3) {
            self.add_loop(&mut lines)?;
        }
        self.sprinkle(&mut lines)?;
        let count = self.dice.below(most);
        self.add_lines(&mut lines, count)?;
        Ok(lines)
    }

    // So many choices among so many heads each, and for each choice a constraint that its first two heads do not stand together. No
    // answer set breaks it, but the second solver need not look for smaller sets in those that do.
    pub(crate) fn choices(&mut self, count: u16, size: u16) -> Result<Vec<Line>, AllocError> {
        let mut lines = Vec::new(self.heap);
        for choice in 0..count {
            let first = choice.saturating_mul(size);
            self.add_choice(&mut lines, first, size)?;
            let pair = [first, first.saturating_add(1)];
            let body = pair
                .iter()
                .map(|place| Literal {
                    negated: false,
                    atom: self.head(*place),
                })
                .collect(self.heap)?;
            lines.push(Line { head: None, body })?;
        }
        Ok(lines)
    }
}
