// Question 16: is each marked number an atom of the texts?
ghost use Rattle.std.specs.Prelude.{ℕ, ◌<◌, Decides};
ghost use Rattle.game.specs.Sets.{In};
ghost use Rattle.report.specs.Reported.{Known};

use closure::row::Row;

// Is each mark below this number?
fn marks_below(row: &Row<96>, number: usize) -> bool
    ensures { Decides result ((k : ℕ) → In k row.now.marks → k < number) }
{
    (number..96).all(|i| !row.at(i))
}

// The question is put to a plan that is shown.
pub(crate) fn is_known(shown: Option<Row<96>>, atoms: usize) -> bool
    ensures { Decides result (Known shown atoms) }
{
    shown.is_none_or(|row| marks_below(&row, atoms))
}
