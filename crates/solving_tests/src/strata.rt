// The first rule that breaks the strata.
use crate::rows::program_of;
use solving::strata::unstratified_rule;
use solving::stratified::Stratified;
use std::test::Fail;

static CASES: [(&str, Option<usize>); 8] = [
    ("p :- not q. q :- p.", Some(0)),
    ("q :- p. p :- not q.", Some(1)),
    ("p :- p.", None),
    ("p :- not p.", Some(0)),
    ("a :- b. b :- not c. c :- d.", None),
    ("a :- b. b :- not c. c :- d. d :- a.", Some(1)),
    (":- not p, p.", None),
    ("", None),
];

#[test]
fn breaks(rt: HostRuntime) -> Result<(), Fail> {
    for (text, want) in &CASES {
        let program = program_of(rt.alloc(), text)?.ok_or("a limit")?;
        assert_eq!(rt; unstratified_rule(&program), *want, "{}", text);
        let got = match Stratified::new(program) {
            Ok(_) => None,
            Err(place) => Some(place),
        };
        assert_eq!(rt; got, *want, "{}", text);
    }
    Ok(())
}
