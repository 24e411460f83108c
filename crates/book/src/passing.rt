// Which plans an ask passes over.
ghost use Rattle.std.specs.Prelude.{Decides};
ghost use Rattle.std.specs.List.{ContainsAt as Has};
ghost use Rattle.runs.specs.Book.{SheetBeats};
ghost use Rattle.book.specs.Models.{texts_from, rows, pairs};
ghost use Rattle.book.specs.Passing.{Passed};

use crate::loaded::Loaded;
use crate::pair::Pair;
use closure::mask::Mask;
use closure::row::Row;

// Does the plan stand among the struck ones?
fn is_struck(struck: &[Row<96>], plan: &Row<96>) -> bool
    ensures { Decides result (Has (rows struck.now) plan.now.marks) }
{
    struck.contains(plan)
}

impl Loaded {
    // Does a reply on the sheet beat the plan? It must be a reply to this plan.
    fn is_beaten(&self, sheet: &[Pair], plan: &Row<96>) -> bool
        ensures { Decides result (SheetBeats (texts_from self.now) (pairs sheet.now) plan.now.marks) }
    {
        let given = Mask::of(plan);
        sheet.iter().any(|pair| self.beats(given, pair.reply))
    }

    // Is the plan struck, or beaten by a reply on the sheet?
    pub(crate) fn passes_over(&self, struck: &[Row<96>], sheet: &[Pair], plan: &Row<96>) -> bool
        ensures { Passed (texts_from self.now) (rows struck.now) (pairs sheet.now) plan.now.marks result }
    {
        if is_struck(struck, plan) {
            return true;
        }
        self.is_beaten(sheet, plan)
    }
}
