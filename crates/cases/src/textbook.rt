// A second solver, by the definitions of the textbooks: it tries all sets.
use crate::line::Line;
use crate::paths::first_break;
use crate::subset::Subset;
use std::alloc::{AllocError, Global};

// A rule as sets.
#[derive(Clone, Copy)]
pub(crate) struct Clause {
    pub(crate) head: Option<u16>,
    pub(crate) plain: Subset,
    pub(crate) negated: Subset,
}

impl Clause {
    fn of(line: &Line) -> Clause {
        Clause {
            head: line.head,
            plain: line.under(false),
            negated: line.under(true),
        }
    }

    // Is the clause, without its negated atoms, in the reduct for the set?
    fn stays(&self, set: Subset) -> bool {
        self.negated.and(set).is_empty()
    }
}

// The rules of a program, and the atoms that are heads.
#[derive(Drop)]
pub(crate) struct Textbook {
    clauses: Vec<Clause>,
    heads: Subset,
}

impl Textbook {
    fn new(clauses: Vec<Clause>) -> Textbook {
        let heads = Subset::union(
            clauses
                .iter()
                .filter_map(|clause| clause.head)
                .map(Subset::one),
        );
        Textbook { clauses, heads }
    }

    pub(crate) fn of(heap: Global, lines: &[Line]) -> Result<Textbook, AllocError> {
        Ok(Textbook::new(lines.iter().map(Clause::of).collect(heap)?))
    }

    // The same of the clauses that have a head.
    pub(crate) fn headed(&self, heap: Global) -> Result<Textbook, AllocError> {
        let clauses = self
            .clauses
            .iter()
            .copied()
            .filter(|clause| clause.head.is_some())
            .collect(heap)?;
        Ok(Textbook::new(clauses))
    }

    // The place of the first clause with a negated atom that its head reaches.
    pub(crate) fn first_break(&self) -> Option<usize> {
        first_break(self.clauses.as_slice())
    }

    // Of the reduct for `all`: is the head of each clause with a head in the set where its plain atoms are?
    fn obeys(&self, all: Subset, set: Subset) -> bool {
        self.clauses
            .iter()
            .filter(|clause| clause.stays(all) && clause.plain.within(set))
            .filter_map(|clause| clause.head)
            .all(|head| set.has(head))
    }

    // Has no clause without a head a body that is true in the set?
    fn allows(&self, all: Subset) -> bool {
        !self.clauses.iter().any(|clause| clause.head.is_none()
            && clause.stays(all)
            && clause.plain.within(all))
    }

    // Is the set with the facts the smallest one around the facts that obeys the reduct for it?
    fn is_smallest(&self, set: Subset, facts: Subset) -> bool {
        let all = set.or(facts);
        self.obeys(all, all)
            && !(0..set.parts())
                .map(|number| set.part(number).or(facts))
                .any(|smaller| smaller != all && self.obeys(all, smaller))
    }

    // Is the set an answer set with these facts given?
    pub(crate) fn answers(&self, set: Subset, facts: Subset) -> bool {
        set.within(self.heads) && self.allows(set.or(facts)) && self.is_smallest(set, facts)
    }

    // The answer sets with these facts given, by rising numbers.
    pub(crate) fn all_answers(
        &self,
        heap: Global,
        facts: Subset,
    ) -> Result<Vec<Subset>, AllocError> {
        (0..self.heads.parts())
            .map(|number| self.heads.part(number))
            .filter(|set| self.answers(*set, facts))
            .collect(heap)
    }

    // Is there an answer set with these facts given?
    pub(crate) fn holds(&self, facts: Subset) -> bool {
        (0..self.heads.parts())
            .map(|number| self.heads.part(number))
            .any(|set| self.answers(set, facts))
    }
}
