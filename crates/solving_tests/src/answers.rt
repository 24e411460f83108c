// Is a set an answer set? Atoms are numbered by first appearance in the text.
use closure::row::Row;
use reading::table::Atoms;
use reading::text::read_text;
use refusals::fault::{Fault, Text};
use solving::job::Job;
use std::alloc::Global;
use std::test::Fail;

const LOOP_OF_TWO: &[u8] = b"a :- b. b :- a.";

const FOUR: &[u8] = b"a :- not b. b :- c, not d. c :- a. d :- not b.";

// Texts, what is given, a set, and whether it is an answer set.
const CASES: [(&[u8], &[u16], &[u16], bool); 16] = [
    (LOOP_OF_TWO, &[], &[], true),
    (LOOP_OF_TWO, &[], &[0, 1], false),
    (LOOP_OF_TWO, &[], &[0], false),
    // a 0, b 1, c 2, d 3
    (FOUR, &[], &[0, 2, 3], true),
    (FOUR, &[], &[1], false),
    (FOUR, &[], &[0, 1, 2, 3], false),
    (b"a :- not a.", &[], &[], false),
    (b"a :- not a.", &[], &[0], false),
    (b":- .", &[], &[], false),
    (b"a :- .", &[], &[0], true),
    (b"a :- .", &[], &[], false),
    // cut 0, wire 1, quiet 2
    (
        b"cut :- wire, not quiet. quiet :- not cut.",
        &[1],
        &[0],
        true,
    ),
    (
        b"cut :- wire, not quiet. quiet :- not cut.",
        &[2],
        &[0],
        false,
    ),
    (
        b"cut :- wire, not quiet. quiet :- not cut.",
        &[1],
        &[0, 1],
        false,
    ),
    (b"a. :- a, not b.", &[1], &[0], true),
    (b"a. :- a, not b.", &[], &[0], false),
];

fn decided(heap: Global, text: &[u8], given: &[u16], set: &[u16]) -> Result<bool, Fault> {
    let (section, _atoms) = read_text(heap, Text::Plan, text, Atoms::new(heap))?;
    let given = Row::of(given);
    let job = Job {
        program: section.program(),
        given: &given,
    };
    Ok(job.is_answer_set(&Row::of(set)))
}

// Every row of a small text, and what is given.
#[test]
fn sets(rt: HostRuntime) -> Result<(), Fail> {
    for (text, given, set, want) in &CASES {
        assert_eq!(rt; decided(rt.alloc(), text, given, set)?, *want);
    }
    Ok(())
}
