// 64 struck plans, and 256 pairs.
use crate::calls::{asks, look_cause, looks, none_shown, opened, shown, strike_cause};
use crate::rows::NONE;
use book::book::Book;
use book::told::Coherence;
use closure::row::Row;
use finders::branching::Branching;
use std::process::Abort;
use std::test::Fail;

// Seven choices between two: a 0 or b 1, c 2 or d 3, and so on to o 12 or p 13.
const SEVEN: &[u8] =
    b"a:-not b.b:-not a.c:-not d.d:-not c.e:-not f.f:-not e.g:-not h.h:-not g.k:-not l.l:-not k.m:-not n.n:-not m.o:-not p.p:-not o.";

fn shows(rt: &impl Abort, book: &mut Book, struck: usize, plan: &[u16]) -> Result<(), Fail> {
    asks(
        rt,
        book,
        &Branching,
        shown(Coherence::Coherent, 0, struck),
        plan,
    )
}

// All 128 plans win. The first 64 are those with b; the next is the first with a.
#[test]
fn struck_full(rt: HostRuntime) -> Result<(), Fail> {
    let mut book = opened(rt.alloc(), (1, SEVEN, b"", b""))?;
    shows(&rt, &mut book, 0, &[1, 3, 5, 7, 9, 11, 13])?;
    assert_eq!(rt; strike_cause(&mut book), 0);
    let mut row = Row::clear();
    for struck in 1..64 {
        let told = book.ask(&Branching, &mut row)?;
        assert_eq!(rt; told.struck, struck);
        assert_eq!(rt; strike_cause(&mut book), 0, "{}", struck);
    }
    assert_eq!(rt; strike_cause(&mut book), 13);
    shows(&rt, &mut book, 64, &[0, 3, 5, 7, 9, 11, 13])?;
    assert_eq!(rt; strike_cause(&mut book), 14);
    looks(&rt, &book, 2, 0, &[1, 3, 5, 7, 9, 11, 13], NONE)?;
    looks(&rt, &book, 2, 63, &[1, 2, 4, 6, 8, 10, 12], NONE)?;
    assert_eq!(rt; look_cause(&book, 2, 64), 15);
    assert_eq!(rt; strike_cause(&mut book), 14);
    shows(&rt, &mut book, 64, &[0, 3, 5, 7, 9, 11, 13])
}

// Eight choices, a 2 or b 3 and so on to q 16 or r 17, and j 1; or i 0, which leaves two of them.
const OVER_256: &[u8] =
    b"i:-not j.j:-not i.a:-not b.b:-not a.c:-not d.d:-not c.e:-not f.f:-not e.g:-not h.h:-not g.k:-not l.l:-not k.m:-not n.n:-not m.o:-not p.p:-not o.q:-not r.r:-not q.:-i,a.:-i,c.:-i,e.:-i,g.:-i,k.:-i,m.";

// One reply to each plan, another for each: s 18 to z 25, and aa 26.
const MIRROR: &[u8] = b"s:-a.t:-c.u:-e.v:-g.w:-k.x:-m.y:-o.z:-q.aa:-i.";

// The site text never holds, so each of the 260 plans is beaten by its reply. The first 256 are those with j.
#[test]
fn sheet_full(rt: HostRuntime) -> Result<(), Fail> {
    let mut book = opened(rt.alloc(), (1, OVER_256, MIRROR, b":- ."))?;
    for _ in 0..2 {
        asks(
            &rt,
            &mut book,
            &Branching,
            none_shown(Coherence::Incoherent, 256, 0),
            NONE,
        )?;
        looks(&rt, &book, 1, 0, &[1, 3, 5, 7, 9, 11, 13, 15, 17], NONE)?;
        looks(
            &rt,
            &book,
            1,
            255,
            &[1, 2, 4, 6, 8, 10, 12, 14, 16],
            &[18, 19, 20, 21, 22, 23, 24, 25],
        )?;
        assert_eq!(rt; look_cause(&book, 1, 256), 15);
        assert_eq!(rt; strike_cause(&mut book), 13);
    }
    Ok(())
}
