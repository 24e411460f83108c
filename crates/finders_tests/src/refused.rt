// What each finder refuses, with the row left as it was.
use crate::listings::{begins, cause_after};
use closure::row::Row;
use finders::branching::Branching;
use finders::counting::Counting;
use finders::finder::Finder;
use std::alloc::Global;
use std::process::Abort;
use std::test::Fail;

const NONE: &[u16] = &[];

const LOOP_OF_TWO: &[u8] = b"a :- b. b :- a.";

const HEADS_24: &[u8] =
    b"a:-a.b:-b.c:-c.d:-d.e:-e.f:-f.g:-g.h:-h.i:-i.j:-j.k:-k.l:-l.m:-m.n:-n.o:-o.p:-p.q:-q.r:-r.s:-s.t:-t.u:-u.v:-v.w:-w.x:-x.";

const HEADS_25: &[u8] =
    b"a:-a.b:-b.c:-c.d:-d.e:-e.f:-f.g:-g.h:-h.i:-i.j:-j.k:-k.l:-l.m:-m.n:-n.o:-o.p:-p.q:-q.r:-r.s:-s.t:-t.u:-u.v:-v.w:-w.x:-x.y:-y.";

// A given atom that is a head, and an earlier entry that is no answer set.
fn of_any<F: Finder<96>>(rt: &impl Abort, heap: Global, finder: &F) -> Result<(), Fail> {
    assert_eq!(rt; cause_after(heap, finder, LOOP_OF_TWO, &[0], None)?, 18);
    assert_eq!(rt;
        cause_after(heap, finder, LOOP_OF_TWO, &[0], Some(Row::of(NONE)))?,
        18
    );
    assert_eq!(rt;
        cause_after(heap, finder, LOOP_OF_TWO, NONE, Some(Row::of(&[0, 1])))?,
        19
    );
    assert_eq!(rt;
        cause_after(heap, finder, LOOP_OF_TWO, NONE, Some(Row::of(&[9])))?,
        19
    );
    assert_eq!(rt;
        cause_after(heap, finder, b"a :- not a.", NONE, Some(Row::of(NONE)))?,
        19
    );
    Ok(())
}

#[test]
fn refused(rt: HostRuntime) -> Result<(), Fail> {
    of_any(&rt, rt.alloc(), &Counting)?;
    of_any(&rt, rt.alloc(), &Branching)
}

#[test]
fn many_heads(rt: HostRuntime) -> Result<(), Fail> {
    let heap = rt.alloc();
    assert_eq!(rt; cause_after(heap, &Counting, HEADS_25, NONE, None)?, 12);
    assert_eq!(rt;
        cause_after(heap, &Counting, HEADS_25, &[0], Some(Row::of(&[1])))?,
        12
    );
    assert!(rt; begins(heap, &Counting, HEADS_24, NONE)?);
    assert!(rt; begins(heap, &Branching, HEADS_25, NONE)?);
    Ok(())
}
