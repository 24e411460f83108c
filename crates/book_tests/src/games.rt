// What an ask tells of small games.
use crate::calls::{Texts, asks, look_cause, looks, none_shown, opened, shown, strike_cause};
use crate::rows::NONE;
use book::told::{Coherence, Verdict};
use finders::branching::Branching;
use finders::counting::Counting;
use finders::finder::Finder;
use std::alloc::Global;
use std::process::Abort;
use std::test::Fail;

// radio 0, wire 1, cut 2, quiet 3, dead 4
pub(crate) fn alarm(side: u8) -> Texts {
    (
        side,
        b"radio :- not wire. wire :- not radio.",
        b"cut :- not quiet. quiet :- not cut.",
        b"dead :- wire, cut. :- dead.",
    )
}

// {wire} comes first and is beaten by {cut}.
#[test]
fn alarm_by_branching(rt: HostRuntime) -> Result<(), Fail> {
    let mut book = opened(rt.alloc(), alarm(1))?;
    asks(
        &rt,
        &mut book,
        &Branching,
        shown(Coherence::Coherent, 1, 0),
        &[0],
    )?;
    looks(&rt, &book, 1, 0, &[1], &[2])?;
    assert_eq!(rt; look_cause(&book, 1, 1), 15);
    assert_eq!(rt; look_cause(&book, 2, 0), 15);
    Ok(())
}

// {radio} comes first and wins; once it is struck, none does.
#[test]
fn alarm_by_counting(rt: HostRuntime) -> Result<(), Fail> {
    let mut book = opened(rt.alloc(), alarm(1))?;
    asks(
        &rt,
        &mut book,
        &Counting,
        shown(Coherence::Coherent, 0, 0),
        &[0],
    )?;
    assert_eq!(rt; look_cause(&book, 1, 0), 15);
    assert_eq!(rt; strike_cause(&mut book), 0);
    looks(&rt, &book, 2, 0, &[0], NONE)?;
    asks(
        &rt,
        &mut book,
        &Counting,
        none_shown(Coherence::Coherent, 1, 1),
        NONE,
    )?;
    looks(&rt, &book, 1, 0, &[1], &[2])?;
    looks(&rt, &book, 2, 0, &[0], NONE)
}

// Every plan has a reply for which the site text holds.
#[test]
fn alarm_on_the_other_side(rt: HostRuntime) -> Result<(), Fail> {
    let mut book = opened(rt.alloc(), alarm(2))?;
    asks(
        &rt,
        &mut book,
        &Counting,
        none_shown(Coherence::Coherent, 2, 0),
        NONE,
    )?;
    looks(&rt, &book, 1, 0, &[0], &[2])?;
    looks(&rt, &book, 1, 1, &[1], &[3])?;
    assert_eq!(rt; look_cause(&book, 1, 2), 15);
    Ok(())
}

// Games whose only plan, if any, is the empty one; with the verdict, the coherence and the number of pairs.
const EDGES: [(Texts, Verdict, Coherence, usize); 8] = [
    (
        (1, b"", b"", b""),
        Verdict::PlanShown,
        Coherence::Coherent,
        0,
    ),
    ((2, b"", b"", b""), Verdict::NoPlan, Coherence::Coherent, 1),
    (
        (1, b"a :- not a.", b"", b""),
        Verdict::NoPlan,
        Coherence::Incoherent,
        0,
    ),
    (
        (2, b"a :- not a.", b"", b""),
        Verdict::NoPlan,
        Coherence::Coherent,
        0,
    ),
    (
        (1, b"", b"b :- not b.", b""),
        Verdict::PlanShown,
        Coherence::Coherent,
        0,
    ),
    (
        (2, b"", b"b :- not b.", b""),
        Verdict::PlanShown,
        Coherence::Incoherent,
        0,
    ),
    (
        (1, b":- .", b"", b""),
        Verdict::NoPlan,
        Coherence::Incoherent,
        0,
    ),
    (
        (2, b":- .", b"", b""),
        Verdict::NoPlan,
        Coherence::Coherent,
        0,
    ),
];

fn edges<F: Finder<96>>(rt: &impl Abort, heap: Global, finder: &F) -> Result<(), Fail> {
    for (texts, verdict, coherence, pairs) in EDGES {
        let mut book = opened(heap, texts)?;
        let want = match verdict {
            Verdict::PlanShown => shown(coherence, pairs, 0),
            Verdict::NoPlan => none_shown(coherence, pairs, 0),
        };
        asks(rt, &mut book, finder, want, NONE)?;
    }
    Ok(())
}

#[test]
fn edges_by_branching(rt: HostRuntime) -> Result<(), Fail> {
    edges(&rt, rt.alloc(), &Branching)
}

#[test]
fn edges_by_counting(rt: HostRuntime) -> Result<(), Fail> {
    edges(&rt, rt.alloc(), &Counting)
}

// The reply that beats the empty plan is the empty one.
#[test]
fn empty_pair(rt: HostRuntime) -> Result<(), Fail> {
    let mut book = opened(rt.alloc(), (2, b"", b"", b""))?;
    asks(
        &rt,
        &mut book,
        &Branching,
        none_shown(Coherence::Coherent, 1, 0),
        NONE,
    )?;
    looks(&rt, &book, 1, 0, NONE, NONE)
}
