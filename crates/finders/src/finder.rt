// What a finder of answer sets owes.
ghost use Rattle.std.specs.Prelude.{◌≡◌, ℕ};
ghost use Rattle.finders.specs.Asked.{Answers, from, refusal_number};
ghost use Rattle.finders.specs.Meanings.{Meaning};
ghost use Rattle.programs.specs.Programs.{rules_of};

use closure::row::Row;
use programs::program::Program;

#[derive(Clone, Copy, PartialEq, Eq, Debug)]
pub enum Found {
    // The row holds the entry.
    Entry,
    // No entry is left, and the row is clear.
    End,
}

#[derive(Clone, Copy, PartialEq, Eq, Debug)]
pub enum Refusal {
    // The program has more heads than the finder's most.
    ManyHeads,
    // A given atom is a head.
    GivenHead,
    // The earlier entry is not on the list.
    Unlisted,
}

impl Refusal {
    // The number of the question that was answered with no.
    pub fn cause(self) -> u8
        ensures { result ≡ refusal_number self }
    {
        match self {
            Refusal::ManyHeads => 12,
            Refusal::GivenHead => 18,
            Refusal::Unlisted => 19,
        }
    }
}

// Lists the answer sets of a program with atoms given, in an order of its own.
pub trait Finder<const N: usize> {
    // The number of heads above which a program is refused.
    const MOST: usize;

    ghost MOST: { ℕ };

    // The same number, the order, and the law that every answer set stands there exactly once and nothing else does.
    ghost meaning: { Self → Meaning N };

    // Writes the first entry into the row, or the one after an earlier entry; clears the row where none is left.
    fn next<'j>(
        &self,
        program: &'j Program<N>,
        given: &'j Row<N>,
        earlier: Option<&Row<N>>,
        row: &mut Row<N>,
    ) -> Result<Found, Refusal>
        ensures { Answers (meaning self.now) (rules_of program.now) given.now.marks (from earlier.entry) row.old.marks result row.new.marks };

    ghost most_is: { (s : Self) → (meaning s).most ≡ MOST };
}
