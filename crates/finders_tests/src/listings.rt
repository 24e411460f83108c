// Small texts and their answer sets, for any finder.
use closure::row::Row;
use finders::finder::{Finder, Found};
use programs::program::Program;
use reading::table::Atoms;
use reading::text::read_text;
use refusals::fault::{Fault, Text};
use std::alloc::Global;

// A text with the answer sets in the order of a finder. Atoms are numbered by first appearance.
#[derive(Clone, Copy)]
pub(crate) struct Case {
    pub(crate) text: &'static [u8],
    pub(crate) given: &'static [u16],
    pub(crate) want: &'static [&'static [u16]],
}

// A row that no text has as an entry.
const STALE: &[u16] = &[90, 91];

// Is the answer after this entry the one that is wanted, with its row or with a clear one?
fn goes_on<F: Finder<96>>(
    finder: &F,
    program: &Program<96>,
    given: &Row<96>,
    earlier: Option<Row<96>>,
    want: Option<Row<96>>,
) -> bool {
    let mut row = Row::of(STALE);
    match (
        finder.next(program, given, earlier.as_ref(), &mut row),
        want,
    ) {
        (Ok(Found::Entry), Some(entry)) => row == entry,
        (Ok(Found::End), None) => row.count() == 0,
        _ => false,
    }
}

// Does the finder list the wanted sets, each found by resuming from the one before, and then tell the end?
pub(crate) fn lists<F: Finder<96>>(heap: Global, finder: &F, case: Case) -> Result<bool, Fault> {
    let (section, _atoms) = read_text(heap, Text::Plan, case.text, Atoms::new(heap))?;
    let given = Row::of(case.given);
    let mut earlier = None;
    for atoms in case.want {
        let entry = Row::of(*atoms);
        if !goes_on(finder, section.program(), &given, earlier, Some(entry)) {
            return Ok(false);
        }
        earlier = Some(entry);
    }
    Ok(goes_on(finder, section.program(), &given, earlier, None))
}

// Is this the first entry, with nothing given?
pub(crate) fn begins<F: Finder<96>>(
    heap: Global,
    finder: &F,
    text: &[u8],
    entry: &[u16],
) -> Result<bool, Fault> {
    let (section, _atoms) = read_text(heap, Text::Plan, text, Atoms::new(heap))?;
    Ok(goes_on(
        finder,
        section.program(),
        &Row::clear(),
        None,
        Some(Row::of(entry)),
    ))
}

// The cause of the refusal after an entry, with the row as it was; 0 for anything else.
pub(crate) fn cause_after<F: Finder<96>>(
    heap: Global,
    finder: &F,
    text: &[u8],
    given: &[u16],
    earlier: Option<Row<96>>,
) -> Result<u8, Fault> {
    let (section, _atoms) = read_text(heap, Text::Plan, text, Atoms::new(heap))?;
    let mut row = Row::of(STALE);
    let answer = finder.next(
        section.program(),
        &Row::of(given),
        earlier.as_ref(),
        &mut row,
    );
    match answer {
        Err(refusal) if row == Row::of(STALE) => Ok(refusal.cause()),
        _ => Ok(0),
    }
}
