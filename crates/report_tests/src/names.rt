// Names by their numbers.
use loading::sources::Sources;
use naming::name::name;
use std::alloc::Global;
use std::test::Fail;

fn sources<'a>(plan: &'a str, faults: &'a str, site: &'a str) -> Sources<'a> {
    Sources {
        plan: plan.as_bytes(),
        faults: faults.as_bytes(),
        site: site.as_bytes(),
    }
}

// Three texts, and the names of their atoms in the order of their numbers.
type Named<'a> = (&'a str, &'a str, &'a str, &'a [&'a str]);

static NAMED: [Named<'static>; 4] = [
    (
        "radio :- not wire. wire :- not radio.",
        "cut :- not quiet. quiet :- not cut.",
        "dead :- wire, cut. :- dead.",
        &["radio", "wire", "cut", "quiet", "dead"],
    ),
    // a later text brings only what is new
    (
        ":- a.",
        "b :- a. b :- c.",
        ":- c, a, d, b.",
        &["a", "b", "c", "d"],
    ),
    // a name is as long as its token
    ("% a.\nab. a.", "", "notb :- a, ab.", &["ab", "a", "notb"]),
    ("", "", "", &[]),
];

// The cause, text and byte of the refusal of a name, or three times 0.
fn told(heap: Global, sources: Sources<'_>, number: usize) -> (u8, u8, usize) {
    match name(heap, sources, number) {
        Ok(_) => (0, 0, 0),
        Err(fault) => (fault.cause(), fault.text(), fault.byte()),
    }
}

#[test]
fn each_number(rt: HostRuntime) -> Result<(), Fail> {
    for (plan, faults, site, names) in &NAMED {
        for (number, want) in names.iter().enumerate() {
            let got = name(rt.alloc(), sources(plan, faults, site), number)?;
            assert_eq!(rt; got, want.as_bytes(), "{}", number);
        }
    }
    Ok(())
}

// The first number that is no atom, and others above it.
#[test]
fn past_the_atoms(rt: HostRuntime) {
    for (plan, faults, site, names) in &NAMED {
        for number in [names.len(), 95, 96, usize::MAX] {
            let got = told(rt.alloc(), sources(plan, faults, site), number);
            assert_eq!(rt; got, (16, 0, 0), "{}", number);
        }
    }
}

// Questions 2 to 8 of the texts come first; 9 and 10 are not put.
#[test]
fn refused_texts(rt: HostRuntime) {
    let cases = [
        ("A.", "b.", "c.", 0, (3, 1, 0)),
        ("a", "b.", "c.", 9, (5, 1, 1)),
        ("a.", "b :- ,", "c", 0, (5, 2, 5)),
        ("a.", "b.", "c :- not not d.", 9, (5, 3, 9)),
        ("a.", "a.", "a.", 0, (0, 0, 0)),
        ("", "", "p :- not q. q :- p.", 1, (0, 0, 0)),
        ("", "", "p :- not q. q :- p.", 2, (16, 0, 0)),
    ];
    for (plan, faults, site, number, want) in cases {
        let got = told(rt.alloc(), sources(plan, faults, site), number);
        assert_eq!(rt; got, want, "{}; {}", plan, number);
    }
}
