// The first rule that breaks the strata.
use reading::table::Atoms;
use reading::text::read_text;
use refusals::fault::{Fault, Text};
use solving::strata::unstratified_rule;
use std::alloc::Global;
use std::test::Fail;

#[derive(Clone, Copy)]
struct Case {
    text: &'static [u8],
    broken: Option<usize>,
}

fn broken(heap: Global, text: &[u8]) -> Result<Option<usize>, Fault> {
    let (section, _atoms) = read_text(heap, Text::Site, text, Atoms::new(heap))?;
    Ok(unstratified_rule(section.program()))
}

// The first rule that breaks the strata.
#[test]
fn strata(rt: HostRuntime) -> Result<(), Fail> {
    let cases = [
        Case {
            text: b"p :- not q. q :- p.",
            broken: Some(0),
        },
        Case {
            text: b"q :- p. p :- not q.",
            broken: Some(1),
        },
        Case {
            text: b"p :- p.",
            broken: None,
        },
        Case {
            text: b"p :- not p.",
            broken: Some(0),
        },
        Case {
            text: b"a :- b. b :- not c. c :- d.",
            broken: None,
        },
        Case {
            text: b"a :- b. b :- not c. c :- d. d :- a.",
            broken: Some(1),
        },
        Case {
            text: b":- not p, p.",
            broken: None,
        },
        Case {
            text: b"",
            broken: None,
        },
    ];
    for case in cases {
        assert_eq!(rt; broken(rt.alloc(), case.text)?, case.broken);
    }
    Ok(())
}
