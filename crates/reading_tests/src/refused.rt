// Where texts are refused for what they say, and not for how much they say.
use crate::told::{Texts, check_texts, told};
use std::alloc::Global;
use std::process::Abort;

// Each plan text is refused for this cause, at this byte.
fn check_plans(rt: &impl Abort, heap: Global, cases: &[(&str, u8, usize)]) {
    for (plan, cause, byte) in cases {
        let got = told(heap, 1, plan.as_bytes(), b"", b"");
        assert_eq!(rt; got, (*cause, 1, *byte), "{}", plan);
    }
}

static PLANS: [(&str, u8, usize); 52] = [
    // no token starts here
    ("A.", 3, 0),
    ("Not.", 3, 0),
    ("_a.", 3, 0),
    ("1a.", 3, 0),
    ("-a.", 3, 0),
    ("a:b.", 3, 1),
    ("a:", 3, 1),
    ("a :", 3, 2),
    (": -", 3, 0),
    ("a : - b.", 3, 2),
    (":%\n-.", 3, 0),
    ("a :- B.", 3, 5),
    ("a :- b; c.", 3, 6),
    ("a(b).", 3, 1),
    ("a A", 3, 2),
    ("a.\n% x\n\tB.", 3, 8),
    ("%\rA\nA", 3, 4),
    ("é.", 3, 0),
    ("aé.", 3, 1),
    // the grammar does not allow this token here
    ("not.", 5, 0),
    ("not a.", 5, 0),
    (".", 5, 0),
    (",", 5, 0),
    ("a b.", 5, 2),
    ("a b A.", 5, 2),
    ("a not.", 5, 2),
    ("a, b.", 5, 1),
    ("a..", 5, 2),
    ("a :- :- b.", 5, 5),
    ("a :- , b.", 5, 5),
    ("a :- not, b.", 5, 8),
    ("a :- not not b.", 5, 9),
    ("a :- not :- b.", 5, 9),
    ("a :- not.", 5, 8),
    ("a :- b c.", 5, 7),
    ("a :- b not c.", 5, 7),
    ("a :- b :- c.", 5, 7),
    ("a :- b,, c.", 5, 7),
    ("a :- b,.", 5, 7),
    ("a :- b, :- c.", 5, 8),
    ("a. % x\n.", 5, 7),
    // nor the end, which is told at the text's length
    ("a", 5, 1),
    ("a  ", 5, 3),
    ("a % x", 5, 5),
    ("a\n% x\n", 5, 6),
    ("a. b", 5, 4),
    (":-", 5, 2),
    ("a :-", 5, 4),
    ("a :- b", 5, 6),
    ("a :- b,", 5, 7),
    ("a :- not", 5, 8),
    ("a :- not b % .", 5, 14),
];

#[test]
fn plans(rt: HostRuntime) {
    check_plans(&rt, rt.alloc(), &PLANS);
}

// A head that stands in an earlier text.
static HEADS: [Texts<'static>; 13] = [
    (1, "a :- not b.", "b.", "", (9, 2, 0)),
    (1, "a :- b.", "c. b.", "", (9, 2, 3)),
    (1, "a.", "% x\n a :- c.", "", (9, 2, 5)),
    (1, ":- a.", "a.", "", (9, 2, 0)),
    (1, "a.", "b. a. a.", "a.", (9, 2, 3)),
    (1, "a.", "", "a.", (9, 3, 0)),
    (1, "a.", "b :- c.", "c.", (9, 3, 0)),
    (1, "a.", "b :- not c.", "d :- a. c :- d.", (9, 3, 8)),
    (1, "a.", "b.", "c. :- a. b. a.", (9, 3, 9)),
    (1, ":- a.", "b.", "c.", (0, 0, 0)),
    (1, "a.", ":- a.", ":- a.", (0, 0, 0)),
    (1, "a.", "b :- a. b.", "c :- b, a, c. c.", (0, 0, 0)),
    (1, "a. a.", "b.", "c :- not a.", (0, 0, 0)),
];

#[test]
fn heads_taken(rt: HostRuntime) {
    check_texts(&rt, rt.alloc(), &HEADS);
}

// A site text that is not stratified; the plan text and the fault text need not be.
static STRATA: [Texts<'static>; 10] = [
    (1, "a.", "b.", "p :- not p.", (10, 3, 0)),
    (1, "a.", "b.", "p :- not q. q :- p.", (10, 3, 0)),
    (1, "a.", "b.", "q :- p. p :- not q.", (10, 3, 8)),
    (
        1,
        "a.",
        "b.",
        "r. p :- q. q :- not r, not s. s :- p.",
        (10, 3, 11),
    ),
    (1, "a.", "b.", "p :- not q. q :- not p.", (10, 3, 0)),
    (1, "a.", "b.", "a. p :- not p.", (9, 3, 0)),
    (1, "a.", "b.", "p :- p.", (0, 0, 0)),
    (
        1,
        "a.",
        "b.",
        "p :- q. q :- p. r :- not p. :- not r.",
        (0, 0, 0),
    ),
    (
        1,
        "a :- not c. c :- not a.",
        "b :- not b.",
        "p :- not b, not a.",
        (0, 0, 0),
    ),
    (1, "a.", "b.", ":- not p. p :- q, not b. q :- p.", (0, 0, 0)),
];

#[test]
fn strata_broken(rt: HostRuntime) {
    check_texts(&rt, rt.alloc(), &STRATA);
}
