// The limits, on both sides of each.
use crate::told::told;
use std::alloc::{AllocError, Global};
use std::process::Abort;
use std::test::Fail;

// `piece` so many times, between `front` and `back`.
fn filled(
    heap: Global,
    front: &str,
    piece: &str,
    count: usize,
    back: &str,
) -> Result<String, AllocError> {
    let middle = piece.repeat(heap, count)?;
    format!(in heap; "{front}{middle}{back}")
}

// A fact of four bytes for each number.
fn facts(heap: Global, from: u8, to: u8) -> Result<String, AllocError> {
    let mut text = String::new(heap);
    for n in from..to {
        text.push_str(format!(in heap; "a{n:02}.")?.as_str())?;
    }
    Ok(text)
}

// A plan text in three parts, the second so many times, and what is told of it.
type Filled<'a> = (&'a str, &'a str, usize, &'a str, (u8, u8, usize));

fn check_filled(rt: &impl Abort, heap: Global, cases: &[Filled<'_>]) -> Result<(), Fail> {
    for (front, piece, count, back, want) in cases {
        let plan = filled(heap, front, piece, *count, back)?;
        let got = told(heap, 1, plan.as_bytes(), b"", b"");
        assert_eq!(rt; got, *want, "{}; {}", count, back);
    }
    Ok(())
}

static PLANS: [Filled<'static>; 44] = [
    // 16,384 bytes
    ("", " ", 16_384, "", (0, 0, 0)),
    ("", " ", 16_385, "", (2, 1, 0)),
    ("", " ", 16_382, "a.", (0, 0, 0)),
    ("", " ", 16_383, "a.", (2, 1, 0)),
    ("", " ", 16_383, "a", (5, 1, 16_384)),
    ("", " ", 16_383, "A", (3, 1, 16_383)),
    ("A", "%", 16_384, "", (2, 1, 0)),
    // 32 bytes of a name
    ("", "x", 32, ".", (0, 0, 0)),
    ("", "x", 33, ".", (4, 1, 0)),
    (" a", "9", 31, ".", (0, 0, 0)),
    (" a", "9", 32, ".", (4, 1, 1)),
    ("not", "t", 30, "", (4, 1, 0)),
    (":- not ", "x", 33, ".", (4, 1, 7)),
    ("a ", "x", 32, "", (5, 1, 2)),
    ("a ", "x", 33, "", (4, 1, 2)),
    ("a b ", "x", 33, "", (5, 1, 2)),
    ("A", "x", 33, "", (3, 1, 0)),
    // 16 literals
    (":- b", ",b", 15, ".", (0, 0, 0)),
    (":- b", ",b", 16, ".", (6, 1, 35)),
    (":- b", ",b", 15, ",not b.", (6, 1, 35)),
    (":- b", ",b", 15, ", not", (6, 1, 36)),
    (":- b", ",b", 15, ",.", (5, 1, 35)),
    (":- b", ",b", 15, ",,", (5, 1, 35)),
    (":- b", ",b", 15, ",", (5, 1, 35)),
    (":- b", ",b", 15, ",:-", (5, 1, 35)),
    (":- b", ",b", 15, ",B", (3, 1, 35)),
    (":- b", ",b", 15, " b.", (5, 1, 35)),
    (":- not b", ",not b", 15, ".", (0, 0, 0)),
    (":- not b", ",not b", 16, ".", (6, 1, 99)),
    (":- b", ",not b", 14, ",not not b.", (5, 1, 93)),
    ("a :- b", ",b", 15, ". c :- b, d.", (0, 0, 0)),
    // 256 rules
    ("", "a.", 256, "", (0, 0, 0)),
    ("", "a.", 257, "", (7, 1, 512)),
    ("", ":-.", 256, "", (0, 0, 0)),
    ("", ":-.", 257, "", (7, 1, 768)),
    ("", "a.", 256, " % b.", (0, 0, 0)),
    ("", "a.", 256, " a", (7, 1, 513)),
    ("", "a.", 256, ":-", (7, 1, 512)),
    ("", "a.", 256, ".", (5, 1, 512)),
    ("", "a.", 256, ",", (5, 1, 512)),
    ("", "a.", 256, "not a.", (5, 1, 512)),
    ("", "a.", 256, "A", (3, 1, 512)),
    ("", "a.", 255, "a", (5, 1, 511)),
    ("", "a.", 255, "a:-a,a.", (0, 0, 0)),
];

#[test]
fn plans(rt: HostRuntime) -> Result<(), Fail> {
    check_filled(&rt, rt.alloc(), &PLANS)
}

// The plan text has the first atoms, the fault text those up to the second number, the site text those up to the third.
#[test]
fn atoms(rt: HostRuntime) -> Result<(), Fail> {
    let heap = rt.alloc();
    let cases = [
        (96, 96, 96, (0, 0, 0)),
        (97, 97, 97, (8, 1, 384)),
        (0, 96, 96, (0, 0, 0)),
        (0, 97, 97, (8, 2, 384)),
        (0, 0, 96, (0, 0, 0)),
        (0, 0, 97, (8, 3, 384)),
        (40, 80, 96, (0, 0, 0)),
        (40, 80, 97, (8, 3, 64)),
        (40, 97, 98, (8, 2, 224)),
        (96, 97, 97, (8, 2, 0)),
        (96, 96, 97, (8, 3, 0)),
    ];
    for (first, second, third, want) in cases {
        let plan = facts(heap, 0, first)?;
        let faults = facts(heap, first, second)?;
        let site = facts(heap, second, third)?;
        let got = told(heap, 1, plan.as_bytes(), faults.as_bytes(), site.as_bytes());
        assert_eq!(rt; got, want, "{}; {}; {}", first, second, third);
    }
    Ok(())
}

// Where the plan text has 96 atoms.
#[test]
fn atoms_all_used(rt: HostRuntime) -> Result<(), Fail> {
    let heap = rt.alloc();
    let plan = facts(heap, 0, 96)?;
    let cases = [
        (":- a95", ", not a00", 15, ".", "", (0, 0, 0)),
        (":- a00", ",a00", 15, ",b.", "", (6, 2, 67)),
        (":- a00", ",a00", 14, ",b.", "", (8, 2, 63)),
        (":- not ", "b", 1, ".", "", (8, 2, 7)),
        (":- not ", "b", 33, ".", "", (4, 2, 7)),
        ("", "a00.", 1, "b.", "", (8, 2, 4)),
        ("", "a00.", 1, "b b", "", (8, 2, 4)),
        ("", "a00.", 1, "", ":- a01. c.", (8, 3, 8)),
        ("", ":-.", 256, "b.", "", (7, 2, 768)),
    ];
    for (front, piece, count, back, site, want) in cases {
        let faults = filled(heap, front, piece, count, back)?;
        let got = told(heap, 1, plan.as_bytes(), faults.as_bytes(), site.as_bytes());
        assert_eq!(rt; got, want, "{}; {}", front, back);
    }
    Ok(())
}
