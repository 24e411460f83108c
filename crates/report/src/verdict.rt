// The report of a verdict: whether the texts are coherent, and the plan that is shown.
ghost use Rattle.report.specs.Reported.{Reported};

use crate::known::is_known;
use crate::lines::report_lines;
use closure::row::Row;
use loading::sources::Sources;
use loading::texts::methods::read_texts;
use refusals::fault::Fault;
use refusals::room::write_whole;
use std::alloc::Global;

// Questions 2 to 8 of the three texts, as in a load, then 16 for a plan that is shown, then 17.
pub fn report(
    heap: Global,
    sources: Sources<'_>,
    coherent: bool,
    shown: Option<Row<96>>,
    buffer: &mut [u8],
) -> Result<usize, Fault>
    ensures { Reported sources.entry.plan.now sources.entry.faults.now sources.entry.site.now coherent shown buffer.old buffer.new result }
{
    let texts = read_texts(heap, sources)?;
    let atoms = texts.atoms().entries();
    if !is_known(shown, atoms.len()) {
        return Err(Fault::NoAtom);
    }
    let lines = report_lines(heap, coherent, shown, atoms)?;
    write_whole(lines.as_slice(), buffer)
}
