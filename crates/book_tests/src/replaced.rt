// What a load and a wipe leave of the book before.
use crate::calls::{asks, load, look_cause, looks, none_shown, opened, shown, strike_cause};
use crate::games::alarm;
use crate::rows::NONE;
use book::book::Book;
use book::told::Coherence;
use finders::branching::Branching;
use std::alloc::Global;
use std::process::Abort;
use std::test::Fail;

// The alarm site with {wire} on the sheet and {radio} struck.
fn struck(rt: &impl Abort, heap: Global) -> Result<Book, Fail> {
    let mut book = opened(heap, alarm(1))?;
    first_ask(rt, &mut book)?;
    assert_eq!(rt; strike_cause(&mut book), 0);
    asks(
        rt,
        &mut book,
        &Branching,
        none_shown(Coherence::Coherent, 1, 1),
        NONE,
    )?;
    Ok(book)
}

fn first_ask(rt: &impl Abort, book: &mut Book) -> Result<(), Fail> {
    asks(rt, book, &Branching, shown(Coherence::Coherent, 1, 0), &[0])
}

// No pair, no struck plan, none shown.
fn blank(rt: &impl Abort, book: &mut Book) {
    assert_eq!(rt; look_cause(book, 1, 0), 15);
    assert_eq!(rt; look_cause(book, 2, 0), 15);
    assert_eq!(rt; strike_cause(book), 13);
}

#[test]
fn wiped(rt: HostRuntime) -> Result<(), Fail> {
    let mut book = struck(&rt, rt.alloc())?;
    book.wipe();
    blank(&rt, &mut book);
    first_ask(&rt, &mut book)?;
    book.wipe();
    blank(&rt, &mut book);
    Ok(())
}

// On the other side {quiet} beats {wire}, and from the sheet {radio} too.
#[test]
fn loaded_again(rt: HostRuntime) -> Result<(), Fail> {
    let mut book = struck(&rt, rt.alloc())?;
    load(&mut book, rt.alloc(), alarm(1))?;
    blank(&rt, &mut book);
    first_ask(&rt, &mut book)?;
    load(&mut book, rt.alloc(), alarm(2))?;
    blank(&rt, &mut book);
    asks(
        &rt,
        &mut book,
        &Branching,
        none_shown(Coherence::Coherent, 1, 0),
        NONE,
    )?;
    looks(&rt, &book, 1, 0, &[1], &[3])
}
