// What is read of texts that are not refused.
use loading::games::read_game;
use loading::side::Side;
use loading::sources::Sources;
use reading::section::Section;
use reading::table::Atoms;
use refusals::fault::Text;
use std::process::Abort;
use std::test::Fail;

// A plan text without a fault text and a site text.
fn alone(plan: &[u8]) -> Sources<'_> {
    Sources {
        plan,
        faults: b"",
        site: b"",
    }
}

// The section has these rules and no others: where each starts, its head, its plain and its negated atoms.
fn check_rules(rt: &impl Abort, section: &Section, rules: &[(usize, Option<u16>, &[u16], &[u16])]) {
    assert_eq!(rt; section.count(), rules.len());
    assert_eq!(rt; section.places().len(), rules.len());
    assert_eq!(rt; section.program().rules().len(), rules.len());
    let read = section.program().rules().iter().zip(section.places());
    for ((rule, place), (at, head, plain, negated)) in read.zip(rules) {
        assert_eq!(rt; *place, *at);
        assert_eq!(rt; rule.head, *head);
        assert_eq!(rt; rule.plain.as_slice(), *plain);
        assert_eq!(rt; rule.negated.as_slice(), *negated);
    }
}

// The table has these atoms and no others: in which text and where each first stands, and its name.
fn check_atoms(rt: &impl Abort, atoms: &Atoms<'_>, names: &[(Text, usize, &str)]) {
    assert_eq!(rt; atoms.count(), names.len());
    assert_eq!(rt; atoms.entries().len(), names.len());
    for (atom, (text, at, name)) in atoms.entries().iter().zip(names) {
        assert_eq!(rt; atom.text, *text);
        assert_eq!(rt; atom.at, *at);
        assert_eq!(rt; atom.name, name.as_bytes());
    }
}

#[test]
fn three_texts(rt: HostRuntime) -> Result<(), Fail> {
    let sources = Sources {
        plan: b"radio :- not wire. wire :- not radio.",
        faults: b"cut :- not quiet. quiet :- not cut.",
        site: b"dead :- wire, cut. :- dead.",
    };
    let game = read_game(rt.alloc(), 2, sources)?;
    assert_eq!(rt; game.side, Side::EveryPlan);
    let texts = &game.texts;
    check_rules(
        &rt,
        texts.plan(),
        &[(0, Some(0), &[], &[1]), (19, Some(1), &[], &[0])],
    );
    check_rules(
        &rt,
        texts.faults(),
        &[(0, Some(2), &[], &[3]), (18, Some(3), &[], &[2])],
    );
    check_rules(
        &rt,
        texts.site(),
        &[(0, Some(4), &[1, 2], &[]), (19, None, &[4], &[])],
    );
    check_atoms(
        &rt,
        texts.atoms(),
        &[
            (Text::Plan, 0, "radio"),
            (Text::Plan, 13, "wire"),
            (Text::Faults, 0, "cut"),
            (Text::Faults, 11, "quiet"),
            (Text::Site, 0, "dead"),
        ],
    );
    Ok(())
}

// Repeats are kept, and plain and negated atoms stand apart in the order of the text.
#[test]
fn one_text(rt: HostRuntime) -> Result<(), Fail> {
    let plan = b"b :- a, not c, a, not b.\n:- .\nb.\na :- .";
    let game = read_game(rt.alloc(), 1, alone(plan))?;
    assert_eq!(rt; game.side, Side::SomePlan);
    let texts = &game.texts;
    check_rules(
        &rt,
        texts.plan(),
        &[
            (0, Some(0), &[1, 1], &[2, 0]),
            (25, None, &[], &[]),
            (30, Some(0), &[], &[]),
            (33, Some(1), &[], &[]),
        ],
    );
    check_rules(&rt, texts.faults(), &[]);
    check_rules(&rt, texts.site(), &[]);
    check_atoms(
        &rt,
        texts.atoms(),
        &[
            (Text::Plan, 0, "b"),
            (Text::Plan, 5, "a"),
            (Text::Plan, 12, "c"),
        ],
    );
    Ok(())
}

// How many rules and atoms a plan text has.
#[test]
fn counts(rt: HostRuntime) -> Result<(), Fail> {
    let cases = [
        ("", 0, 0),
        (" \t\r\n", 0, 0),
        ("%", 0, 0),
        ("% a.", 0, 0),
        ("%\ra.", 0, 0),
        ("% é \u{0} : A\n", 0, 0),
        ("%%\n% a.\n\r\n", 0, 0),
        ("a.", 1, 1),
        ("a.% b.", 1, 1),
        ("a%.\n.", 1, 1),
        ("\ta\r\n.\n", 1, 1),
        (":- .", 1, 0),
        (":-.", 1, 0),
        ("a :- .", 1, 1),
        ("a:-b,not c.", 1, 3),
        ("a:-not%\nb.", 1, 2),
        ("a :-%x\rb.\n b.", 1, 2),
        ("a. a.", 2, 1),
        (":- b, b, not b.", 1, 1),
        ("notb.", 1, 1),
        ("not_. not1. noT. nota. no.", 5, 5),
        (":- not notb, notb.", 1, 1),
        ("ab. aB. a_b. a1. ab1.", 5, 5),
        (
            "aaaaaaaabbbbbbbbaaaaaaaabbbbbbbb. aaaaaaaabbbbbbbbaaaaaaaabbbbbbbc.",
            2,
            2,
        ),
    ];
    for (plan, rules, atoms) in cases {
        let game = read_game(rt.alloc(), 1, alone(plan.as_bytes()))?;
        assert_eq!(rt; game.texts.plan().count(), rules, "{}", plan);
        assert_eq!(rt; game.texts.atoms().count(), atoms, "{}", plan);
    }
    Ok(())
}
