// What an ask tells, in lines.
ghost use Rattle.std.specs.Prelude.{OnOk};
ghost use Rattle.reading.specs.Tables.{standings};
ghost use Rattle.book.specs.Answers.{verdict_model, coherence_model};
ghost use Rattle.desk_book.specs.Asked.{AskLines};

use book::told::Told;
use closure::row::Row;
use deciding::deciding::{is_coherent, plan_shown};
use desk_text::lines::add_sizes;
use reading::table::Atom;
use report::lines::report_lines;
use std::alloc::{AllocError, Global};

// Adds the report, and the sizes of the sheet and of the list of struck plans.
pub(crate) fn add_told(
    heap: Global,
    out: &mut Vec<u8>,
    told: Told,
    row: Row<96>,
    atoms: &[Atom<'_>],
) -> Result<(), AllocError>
    ensures { OnOk result (AskLines (standings atoms.now) (verdict_model told.verdict) (coherence_model told.coherence) told.pairs told.struck row.marks out.old.items out.new.items) }
{
    let shown = plan_shown(told.verdict, row);
    let coherent = is_coherent(told.coherence);
    let lines = report_lines(heap, coherent, shown, atoms).map_err(|_| AllocError)?;
    out.extend_from_slice(lines.as_slice())?;
    add_sizes(heap, out, told.pairs, told.struck)
}
