// Calls of a book, with what each should answer.
use crate::rows::stale;
use book::book::Book;
use book::told::{Coherence, Told, Verdict};
use closure::row::Row;
use finders::finder::Finder;
use loading::sources::Sources;
use refusals::fault::Fault;
use std::alloc::Global;
use std::process::Abort;
use std::test::Fail;

// A side, and the plan text, the fault text and the site text. Atoms are numbered by first appearance.
pub(crate) type Texts = (u8, &'static [u8], &'static [u8], &'static [u8]);

// A new book with these texts loaded.
pub(crate) fn opened(heap: Global, texts: Texts) -> Result<Book, Fault> {
    let mut book = Book::new();
    load(&mut book, heap, texts)?;
    Ok(book)
}

pub(crate) fn load(book: &mut Book, heap: Global, texts: Texts) -> Result<(), Fault> {
    let (side, plan, faults, site) = texts;
    let sources = Sources { plan, faults, site };
    book.load(heap, side, sources)
}

pub(crate) fn shown(coherence: Coherence, pairs: usize, struck: usize) -> Told {
    Told {
        verdict: Verdict::PlanShown,
        coherence,
        pairs,
        struck,
    }
}

pub(crate) fn none_shown(coherence: Coherence, pairs: usize, struck: usize) -> Told {
    Told {
        verdict: Verdict::NoPlan,
        coherence,
        pairs,
        struck,
    }
}

// The ask tells this and writes this plan.
pub(crate) fn asks<F: Finder<96>>(
    rt: &impl Abort,
    book: &mut Book,
    finder: &F,
    want: Told,
    plan: &[u16],
) -> Result<(), Fail> {
    let mut row = stale();
    let told = book.ask(finder, &mut row)?;
    assert_eq!(rt; told, want);
    assert!(rt; row == Row::of(plan));
    Ok(())
}

// The look writes these two rows.
pub(crate) fn looks(
    rt: &impl Abort,
    book: &Book,
    kind: u8,
    place: usize,
    first: &[u16],
    second: &[u16],
) -> Result<(), Fail> {
    let mut one = stale();
    let mut two = stale();
    book.look(kind, place, &mut one, &mut two)?;
    assert!(rt; one == Row::of(first));
    assert!(rt; two == Row::of(second));
    Ok(())
}

// The cause of a refused ask, with the row as it was; 0 for anything else.
pub(crate) fn ask_cause<F: Finder<96>>(book: &mut Book, finder: &F) -> u8 {
    let mut row = stale();
    match book.ask(finder, &mut row) {
        Err(refusal) if row == stale() => refusal.cause(),
        _ => 0,
    }
}

// The cause of a refused strike; 0 where it is done.
pub(crate) fn strike_cause(book: &mut Book) -> u8 {
    match book.strike() {
        Err(refusal) => refusal.cause(),
        Ok(()) => 0,
    }
}

// The cause of a refused look, with both rows as they were; 0 for anything else.
pub(crate) fn look_cause(book: &Book, kind: u8, place: usize) -> u8 {
    let mut one = stale();
    let mut two = stale();
    match book.look(kind, place, &mut one, &mut two) {
        Err(refusal) if one == stale() && two == stale() => refusal.cause(),
        _ => 0,
    }
}
