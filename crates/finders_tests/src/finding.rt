// What each finder lists.
use crate::listings::{Case, lists};
use finders::branching::Branching;
use finders::counting::Counting;
use finders::finder::Finder;
use std::alloc::Global;
use std::process::Abort;
use std::test::Fail;

const NONE: &[u16] = &[];

// Texts with at most one answer set, which have one listing in any order.
fn any_order<F: Finder<96>>(rt: &impl Abort, heap: Global, finder: &F) -> Result<(), Fail> {
    let cases = [
        Case {
            text: b"a :- b. b :- a.",
            given: NONE,
            want: &[&[]],
        },
        // a 0, b 1, c 2, d 3
        Case {
            text: b"a :- not b. b :- c, not d. c :- a. d :- not b.",
            given: NONE,
            want: &[&[0, 2, 3]],
        },
        Case {
            text: b"a :- not a.",
            given: NONE,
            want: &[],
        },
        Case {
            text: b":- .",
            given: NONE,
            want: &[],
        },
        Case {
            text: b"a :- .",
            given: NONE,
            want: &[&[0]],
        },
        // cut 0, wire 1, quiet 2
        Case {
            text: b"cut :- wire, not quiet. quiet :- not cut. :- quiet.",
            given: &[1],
            want: &[&[0]],
        },
        Case {
            text: b"",
            given: NONE,
            want: &[&[]],
        },
    ];
    for case in cases {
        assert!(rt; lists(heap, finder, case)?);
    }
    Ok(())
}

#[test]
fn one_or_none(rt: HostRuntime) -> Result<(), Fail> {
    any_order(&rt, rt.alloc(), &Counting)?;
    any_order(&rt, rt.alloc(), &Branching)
}

const TWO_PAIRS: &[u8] = b"a :- not b. b :- not a. c :- not d. d :- not c.";

// a 0, b 1, c 2, d 3: as binary numbers 5, 6, 9 and 10.
#[test]
fn counted(rt: HostRuntime) -> Result<(), Fail> {
    let pairs = Case {
        text: TWO_PAIRS,
        given: NONE,
        want: &[&[0, 2], &[1, 2], &[0, 3], &[1, 3]],
    };
    assert!(rt; lists(rt.alloc(), &Counting, pairs)?);
    assert_eq!(rt; <Counting as Finder<96>>::MOST, 24);
    Ok(())
}

// The lowest atom in which two sets differ is in the later one.
#[test]
fn branched(rt: HostRuntime) -> Result<(), Fail> {
    let pairs = Case {
        text: TWO_PAIRS,
        given: NONE,
        want: &[&[1, 3], &[1, 2], &[0, 3], &[0, 2]],
    };
    assert!(rt; lists(rt.alloc(), &Branching, pairs)?);
    assert_eq!(rt; <Branching as Finder<96>>::MOST, 96);
    Ok(())
}
