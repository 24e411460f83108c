// What the calls refuse, with the rows and the book left as they were.
use crate::calls::{
    ask_cause, asks, load, look_cause, looks, none_shown, opened, shown, strike_cause,
};
use crate::games::alarm;
use crate::rows::NONE;
use book::book::Book;
use book::told::Coherence;
use finders::branching::Branching;
use finders::counting::Counting;
use std::alloc::Global;
use std::process::Abort;
use std::test::Fail;

const HEADS_24: &[u8] =
    b"a:-a.b:-b.c:-c.d:-d.e:-e.f:-f.g:-g.h:-h.i:-i.j:-j.k:-k.l:-l.m:-m.n:-n.o:-o.p:-p.q:-q.r:-r.s:-s.t:-t.u:-u.v:-v.w:-w.x:-x.";

const HEADS_25: &[u8] =
    b"a:-a.b:-b.c:-c.d:-d.e:-e.f:-f.g:-g.h:-h.i:-i.j:-j.k:-k.l:-l.m:-m.n:-n.o:-o.p:-p.q:-q.r:-r.s:-s.t:-t.u:-u.v:-v.w:-w.x:-x.y:-y.";

// Nothing is loaded; a wipe, or a load that is refused, changes nothing of it.
#[test]
fn nothing_loaded(rt: HostRuntime) {
    let mut book = Book::new();
    for turn in 0..3 {
        assert_eq!(rt; ask_cause(&mut book, &Branching), 11);
        assert_eq!(rt; ask_cause(&mut book, &Counting), 11);
        assert_eq!(rt; strike_cause(&mut book), 11);
        assert_eq!(rt; look_cause(&book, 0, 0), 11);
        assert_eq!(rt; look_cause(&book, 1, 0), 11);
        assert_eq!(rt; look_cause(&book, 2, 0), 11);
        if turn == 0 {
            book.wipe();
        } else {
            assert_eq!(rt; load_cause(&mut book, rt.alloc(), 0, b""), 1);
        }
    }
}

// The cause of a refused load of a side and a plan text alone; 0 where it is done.
fn load_cause(book: &mut Book, heap: Global, side: u8, plan: &'static [u8]) -> u8 {
    match load(book, heap, (side, plan, b"", b"")) {
        Err(fault) => fault.cause(),
        Ok(()) => 0,
    }
}

// The alarm site, after an ask with {wire} on the sheet and {radio} shown.
fn asked(rt: &impl Abort, heap: Global) -> Result<Book, Fail> {
    let mut book = opened(heap, alarm(1))?;
    asks(
        rt,
        &mut book,
        &Branching,
        shown(Coherence::Coherent, 1, 0),
        &[0],
    )?;
    Ok(book)
}

// The book is still as `asked` left it: {radio} can be struck, and the sheet is not gone through again.
fn as_asked(rt: &impl Abort, book: &mut Book) -> Result<(), Fail> {
    looks(rt, book, 1, 0, &[1], &[2])?;
    assert_eq!(rt; look_cause(book, 1, 1), 15);
    assert_eq!(rt; look_cause(book, 2, 0), 15);
    assert_eq!(rt; strike_cause(book), 0);
    looks(rt, book, 2, 0, &[0], NONE)?;
    assert_eq!(rt; look_cause(book, 2, 1), 15);
    asks(
        rt,
        book,
        &Branching,
        none_shown(Coherence::Coherent, 1, 1),
        NONE,
    )
}

// A wrong side, and a text that is refused.
#[test]
fn loads(rt: HostRuntime) -> Result<(), Fail> {
    let mut book = asked(&rt, rt.alloc())?;
    assert_eq!(rt; load_cause(&mut book, rt.alloc(), 0, b"a."), 1);
    assert_eq!(rt; load_cause(&mut book, rt.alloc(), 3, b"a."), 1);
    assert_eq!(rt; load_cause(&mut book, rt.alloc(), 1, b"A"), 3);
    assert_eq!(rt; load_cause(&mut book, rt.alloc(), 2, b"a"), 5);
    as_asked(&rt, &mut book)
}

// Kinds that are none, and places past the end.
#[test]
fn looked_at_nothing(rt: HostRuntime) -> Result<(), Fail> {
    let mut book = asked(&rt, rt.alloc())?;
    let cases = [
        (0, 0),
        (3, 0),
        (255, 0),
        (1, 1),
        (1, usize::MAX),
        (2, 0),
        (2, 1),
    ];
    for (kind, place) in cases {
        assert_eq!(rt; look_cause(&book, kind, place), 15, "{}; {}", kind, place);
    }
    as_asked(&rt, &mut book)
}

// None is shown: after a load, after a strike, after an ask that finds none, after a wipe.
#[test]
fn strikes_of_none(rt: HostRuntime) -> Result<(), Fail> {
    let mut book = opened(rt.alloc(), alarm(1))?;
    assert_eq!(rt; strike_cause(&mut book), 13);
    assert_eq!(rt; look_cause(&book, 2, 0), 15);
    asks(
        &rt,
        &mut book,
        &Counting,
        shown(Coherence::Coherent, 0, 0),
        &[0],
    )?;
    assert_eq!(rt; strike_cause(&mut book), 0);
    assert_eq!(rt; strike_cause(&mut book), 13);
    asks(
        &rt,
        &mut book,
        &Counting,
        none_shown(Coherence::Coherent, 1, 1),
        NONE,
    )?;
    assert_eq!(rt; strike_cause(&mut book), 13);
    looks(&rt, &book, 1, 0, &[1], &[2])?;
    looks(&rt, &book, 2, 0, &[0], NONE)?;
    assert_eq!(rt; look_cause(&book, 2, 1), 15);
    book.wipe();
    assert_eq!(rt; strike_cause(&mut book), 13);
    asks(
        &rt,
        &mut book,
        &Counting,
        shown(Coherence::Coherent, 0, 0),
        &[0],
    )
}

// 25 heads of the plan text are too many for the finder that counts; the plan that the other one showed can still be struck.
#[test]
fn plan_heads(rt: HostRuntime) -> Result<(), Fail> {
    let mut book = opened(rt.alloc(), (1, HEADS_25, b"", b""))?;
    assert_eq!(rt; ask_cause(&mut book, &Counting), 12);
    assert_eq!(rt; strike_cause(&mut book), 13);
    asks(
        &rt,
        &mut book,
        &Branching,
        shown(Coherence::Coherent, 0, 0),
        NONE,
    )?;
    assert_eq!(rt; ask_cause(&mut book, &Counting), 12);
    assert_eq!(rt; look_cause(&book, 2, 0), 15);
    assert_eq!(rt; strike_cause(&mut book), 0);
    looks(&rt, &book, 2, 0, NONE, NONE)?;
    assert_eq!(rt; ask_cause(&mut book, &Counting), 12);
    asks(
        &rt,
        &mut book,
        &Branching,
        none_shown(Coherence::Coherent, 0, 1),
        NONE,
    )
}

// The same of the fault text.
#[test]
fn fault_heads(rt: HostRuntime) -> Result<(), Fail> {
    let mut book = opened(rt.alloc(), (2, b"", HEADS_25, b""))?;
    assert_eq!(rt; ask_cause(&mut book, &Counting), 12);
    assert_eq!(rt; look_cause(&book, 1, 0), 15);
    asks(
        &rt,
        &mut book,
        &Branching,
        none_shown(Coherence::Coherent, 1, 0),
        NONE,
    )?;
    assert_eq!(rt; ask_cause(&mut book, &Counting), 12);
    looks(&rt, &book, 1, 0, NONE, NONE)?;
    assert_eq!(rt; look_cause(&book, 1, 1), 15);
    Ok(())
}

// 24 heads are not too many.
#[test]
fn heads_at_the_most(rt: HostRuntime) -> Result<(), Fail> {
    let mut book = opened(rt.alloc(), (1, HEADS_24, b"", b""))?;
    asks(
        &rt,
        &mut book,
        &Counting,
        shown(Coherence::Coherent, 0, 0),
        NONE,
    )?;
    let mut book = opened(rt.alloc(), (2, b"", HEADS_24, b""))?;
    asks(
        &rt,
        &mut book,
        &Counting,
        none_shown(Coherence::Coherent, 1, 0),
        NONE,
    )
}
