// A rule of a program as the dice give it.
use crate::subset::Subset;

// An atom of a body, plain or negated.
#[derive(Clone, Copy)]
pub(crate) struct Literal {
    pub(crate) negated: bool,
    pub(crate) atom: u16,
}

// A head or none, and the body's literals in the order in which they are written, with repeats.
#[derive(Drop)]
pub(crate) struct Line {
    pub(crate) head: Option<u16>,
    pub(crate) body: Vec<Literal>,
}

impl Line {
    // The atoms of the negated literals, or of the plain ones.
    pub(crate) fn under(&self, negated: bool) -> Subset {
        Subset::union(
            self.body
                .iter()
                .filter(|literal| literal.negated == negated)
                .map(|literal| Subset::one(literal.atom)),
        )
    }

    // The atoms of the rule.
    pub(crate) fn atoms(&self) -> Subset {
        let body = self.under(false).or(self.under(true));
        match self.head {
            Some(head) => body.or(Subset::one(head)),
            None => body,
        }
    }
}
