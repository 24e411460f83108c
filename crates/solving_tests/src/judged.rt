// The judgement of a stratified program: the one answer set of its headed rules, and whether its constraints hold.
use crate::rows::program_of;
use closure::row::Row;
use solving::stratified::Stratified;
use std::alloc::{AllocError, Global};
use std::test::Fail;

// A text, what is given, the answer set without what is given, and whether no constraint is broken.
type Case = (&'static str, &'static [u16], &'static [u16], bool);

static CASES: [Case; 28] = [
    ("", &[], &[], true),
    ("", &[0, 95], &[], true),
    // two atoms that only support each other
    ("a :- b. b :- a.", &[], &[], true),
    ("a :- b. b :- a. c :- not a.", &[], &[2], true),
    ("a :- b. b :- a. :- not b.", &[], &[], false),
    ("a :- b. b :- a. a :- c.", &[2], &[0, 1], true),
    // constraints
    (":- .", &[], &[], false),
    ("a. :- a.", &[], &[0], false),
    ("a. :- a, b.", &[], &[0], true),
    ("a. :- a, b.", &[1], &[0], false),
    ("a. :- a, not b.", &[], &[0], false),
    ("a. :- a, not b.", &[1], &[0], true),
    ("a. :- b. :- a, a.", &[], &[0], false),
    // what is given: wire 0, cut 1, dead 2
    (
        ":- wire, cut, not dead. dead :- wire, cut. :- dead.",
        &[],
        &[],
        true,
    ),
    (
        ":- wire, cut, not dead. dead :- wire, cut. :- dead.",
        &[0],
        &[],
        true,
    ),
    (
        ":- wire, cut, not dead. dead :- wire, cut. :- dead.",
        &[0, 1],
        &[2],
        false,
    ),
    // a given atom that is a head: a 0, b 1, c 2
    ("a :- b. c :- not a.", &[0], &[], true),
    ("a :- b. c :- not a.", &[], &[2], true),
    ("a :- b. c :- not a.", &[0, 1], &[], true),
    ("a. b :- a. c :- b.", &[1], &[0, 2], true),
    ("a :- b. b :- a. c :- b.", &[0], &[1, 2], true),
    ("a :- not b. b :- c. :- not a.", &[0, 1], &[], true),
    // several levels of negation: e 0, d 1, c 2, b 3, a 4
    (
        "e :- not d. d :- not c. c :- not b. b :- not a.",
        &[],
        &[1, 3],
        true,
    ),
    (
        "e :- not d. d :- not c. c :- not b. b :- not a.",
        &[4],
        &[0, 2],
        true,
    ),
    (
        "e :- not d. d :- not c. c :- not b. b :- not a. :- e, c.",
        &[4],
        &[0, 2],
        false,
    ),
    (
        "e :- not d, c. d :- not c, not b. c :- not b. b :- not a, a.",
        &[],
        &[0, 2],
        true,
    ),
    // the same between two loops of two atoms: d 0, c 1, e 2, b 3
    (
        "d :- not c. d :- e. e :- d. c :- b. b :- c. :- not e.",
        &[],
        &[0, 2],
        true,
    ),
    (
        "d :- not c. d :- e. e :- d. c :- b. b :- c. :- not e.",
        &[3],
        &[1],
        false,
    ),
];

#[test]
fn judged(rt: HostRuntime) -> Result<(), Fail> {
    for (text, given, answer, holds) in &CASES {
        let program = program_of(rt.alloc(), text)?.ok_or("a limit")?;
        let stratified = Stratified::new(program)?;
        let given = Row::of(given);
        assert!(rt; stratified.answer(&given) == Row::of(answer), "{}", text);
        assert_eq!(rt; stratified.holds(&given), *holds, "{}", text);
    }
    Ok(())
}

// After the start, which has the first atom a0, each atom holds where the one before it does not; a95 must hold.
fn chain(heap: Global, start: &str) -> Result<String, AllocError> {
    let mut text = String::from_str(heap, start)?;
    for n in 1..96u8 {
        let before = n - 1;
        text.push_str(format!(in heap; "a{n} :- not a{before}. ")?.as_str())?;
    }
    text.push_str(":- not a95.")?;
    Ok(text)
}

// Every second atom of 96, from the first one on.
fn every_second(first: u16) -> Row<96> {
    let mut row = Row::clear();
    for atom in (first..96).step_by(2) {
        row.put(atom);
    }
    row
}

// 96 atoms on 96 levels: the first atom is no head, and given or not.
#[test]
fn chained(rt: HostRuntime) -> Result<(), Fail> {
    let text = chain(rt.alloc(), ":- a0, not a0. ")?;
    let program = program_of(rt.alloc(), text.as_str())?.ok_or("a limit")?;
    let stratified = Stratified::new(program)?;
    let none = Row::clear();
    assert!(rt; stratified.answer(&none) == every_second(1));
    assert_eq!(rt; stratified.answer(&none).count(), 48);
    assert!(rt; stratified.holds(&none));
    let first = Row::of(&[0]);
    assert!(rt; stratified.answer(&first) == every_second(2));
    assert_eq!(rt; stratified.answer(&first).count(), 47);
    assert!(rt; !stratified.holds(&first));
    Ok(())
}

// The same with the first atom as a fact, on the lowest level.
#[test]
fn chained_from_a_fact(rt: HostRuntime) -> Result<(), Fail> {
    let text = chain(rt.alloc(), "a0. ")?;
    let program = program_of(rt.alloc(), text.as_str())?.ok_or("a limit")?;
    let stratified = Stratified::new(program)?;
    let none = Row::clear();
    assert!(rt; stratified.answer(&none) == every_second(0));
    assert!(rt; !stratified.holds(&none));
    Ok(())
}
