// How an open book is struck in, looked into and wiped.
ghost use Rattle.std.specs.Prelude.{◌≡◌, ◌<◌, [], ◌∷◌, ◌++◌, length, Some, None, MatchOption};
ghost use Rattle.closure.specs.Bits.{bit_row};
ghost use Rattle.runs.specs.Book.{Goes, look, wrote, refused, no_entry, opened};
ghost use Rattle.book.specs.Kept.{with_struck};
ghost use Rattle.book.specs.Kinds.{kind_number};
ghost use Rattle.book.specs.Models.{texts_from};
ghost use Rattle.book.specs.Opened.{open_book};

use super::Open;
use crate::kind::Kind;
use crate::pair::Pair;
use closure::mask::Mask;
use closure::row::Row;

impl Open {
    // The book with this plan, the one shown, at the end of the struck ones; none is shown then.
    pub(crate) fn with_struck(self, row: Row<96>) -> Open
        requires { (self.shown ≡ Some row) × (length self.struck.items < 64) }
        ensures { open_book result ≡ with_struck (open_book self) row.marks }
    {
        let mut struck = self.struck;
        struck.push_reserved(row);
        Open {
            loaded: self.loaded,
            struck,
            sheet: self.sheet,
            shown: None,
        }
    }

    // The book with its texts alone.
    pub(crate) fn wiped(self) -> Open
        ensures { open_book result ≡ opened (Some (texts_from self.loaded)) }
    {
        let mut struck = self.struck;
        let mut sheet = self.sheet;
        struck.clear();
        sheet.clear();
        Open {
            loaded: self.loaded,
            struck,
            sheet,
            shown: None,
        }
    }

    // A pair of the sheet; or a struck plan, with an empty second row.
    pub(crate) fn entry(&self, kind: Kind, place: usize) -> Option<Pair>
        ensures { MatchOption result (Goes (look (kind_number kind) place) (open_book self.now) (refused no_entry) (open_book self.now)) (λ p. Goes (look (kind_number kind) place) (open_book self.now) (wrote p.plan.marks (bit_row p.reply.bits)) (open_book self.now)) }
    {
        match kind {
            Kind::Pair => self.sheet.as_slice().get(place).copied(),
            Kind::Struck => {
                let plan = *self.struck.as_slice().get(place)?;
                Some(Pair {
                    plan,
                    reply: Mask::clear(),
                })
            }
        }
    }
}
