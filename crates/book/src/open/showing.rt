// How an ask is put to an open book, and what it tells.
ghost use Rattle.std.specs.Prelude.{◌≡◌};
ghost use Rattle.finders.specs.Meanings.{Meaning};
ghost use Rattle.runs.specs.Book.{TooMany, row_of, verdict_of};
ghost use Rattle.book.specs.Answers.{verdict_model};
ghost use Rattle.book.specs.Models.{texts_from, row_shown, rows};
ghost use Rattle.book.specs.Opened.{open_book};
ghost use Rattle.book.specs.Showing.{AsksTo, Tells, some_winner};

use super::Open;
use crate::questions::coherence;
use crate::told::{Told, Verdict};
use closure::row::Row;
use finders::finder::Finder;

impl Open {
    // The book after the plans were gone down: the sheet then, and the plan shown or none.
    pub(crate) fn asked<F: Finder<96>>(self, finder: &F) -> Open
        requires { TooMany (F.meaning finder.now) (texts_from self.loaded) → ⊥ }
        ensures { AsksTo (F.meaning finder.now) (texts_from self.loaded) (open_book self) (open_book result) }
    {
        let mut sheet = self.sheet;
        let shown = self
            .loaded
            .first_winning(finder, self.struck.as_slice(), &mut sheet);
        Open {
            loaded: self.loaded,
            struck: self.struck,
            sheet,
            shown,
        }
    }

    fn verdict(&self) -> Verdict
        ensures { verdict_model result ≡ verdict_of (row_shown self.now.shown) }
    {
        match self.shown {
            Some(_) => Verdict::PlanShown,
            None => Verdict::NoPlan,
        }
    }

    // Is a plan shown, or was one struck?
    fn has_winner(&self) -> bool
        ensures { result ≡ some_winner (row_shown self.now.shown) (rows self.now.struck.items) }
    {
        self.shown.is_some() || self.struck.len() > 0
    }

    // What an ask tells of the book that it leaves.
    pub(crate) fn told(&self) -> Told
        ensures { Tells self.now result }
    {
        Told {
            verdict: self.verdict(),
            coherence: coherence(self.loaded.side, self.has_winner()),
            pairs: self.sheet.len(),
            struck: self.struck.len(),
        }
    }

    // The plan shown; the empty set where none is.
    pub(crate) fn row(&self) -> Row<96>
        ensures { result.marks ≡ row_of (row_shown self.now.shown) }
    {
        self.shown.unwrap_or(Row::clear())
    }
}
