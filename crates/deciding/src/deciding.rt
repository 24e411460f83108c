// From a side and three texts to the report on them.
ghost use Rattle.std.specs.Prelude.{◌≡◌};
ghost use Rattle.book.specs.Answers.{coherence_model, verdict_model};
ghost use Rattle.book.specs.Models.{row_shown};
ghost use Rattle.deciding.specs.Decided.{Decided, Fits, ShownBy, says_coherent};

use book::book::Book;
use book::told::{Coherence, Verdict};
use closure::row::Row;
use finders::branching::Branching;
use loading::sources::Sources;
use refusals::fault::Fault;
use report::verdict::report;
use std::alloc::Global;

// The plan shown, where the verdict is that one is.
pub fn plan_shown(verdict: Verdict, row: Row<96>) -> Option<Row<96>>
    ensures { ShownBy (verdict_model verdict) row.marks (row_shown result) }
{
    match verdict {
        Verdict::PlanShown => Some(row),
        Verdict::NoPlan => None,
    }
}

// Is it said that the texts are coherent?
pub fn is_coherent(coherence: Coherence) -> bool
    ensures { result ≡ says_coherent (coherence_model coherence) }
{
    coherence == Coherence::Coherent
}

// Writes whether the texts are coherent, and the first winning plan or that there is none; or refuses, and the buffer is as it was.
pub fn decide(
    heap: Global,
    side: u8,
    sources: Sources<'_>,
    buffer: &mut [u8],
) -> Result<usize, Fault>
    ensures decided { Decided side sources.entry.plan.now sources.entry.faults.now sources.entry.site.now buffer.old buffer.new result }
    ensures fits { Fits buffer.old result }
{
    let mut book = Book::new();
    book.load(heap, side, sources)?;
    let mut row = Row::clear();
    let Ok(told) = book.ask(&Branching, &mut row) else {
        unreachable()
    };
    let shown = plan_shown(told.verdict, row);
    report(heap, sources, is_coherent(told.coherence), shown, buffer)
}
