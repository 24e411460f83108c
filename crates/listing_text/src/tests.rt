// Lines of small listings, and the words for the orders.
use crate::lines::{Ending, add_set, count_line, refused_line};
use crate::words::{Order, UnknownOrder};
use closure::row::Row;
use finders::finder::Refusal;
use reading::table::Atoms;
use reading::text::read_text;
use refusals::fault::Text;
use std::test::Fail;

static RADIO_OR_WIRE: &str = "radio :- not wire. wire :- not radio. :- cut.";

// The atoms of a set stand in the order of their numbers, and the line goes behind what was there.
#[test]
fn sets(rt: HostRuntime) -> Result<(), Fail> {
    let heap = rt.alloc();
    let atoms = Atoms::new(heap);
    let (_, atoms) = read_text(heap, Text::Plan, RADIO_OR_WIRE.as_bytes(), atoms)?;
    let none = Row::clear();
    let mut out = Vec::new(heap);
    add_set(&mut out, &atoms, &none)?;
    assert_eq!(rt; out.as_slice(), b"\n".as_slice());
    add_set(&mut out, &atoms, &none.with(1))?;
    assert_eq!(rt; out.as_slice(), b"\nwire.\n".as_slice());
    add_set(&mut out, &atoms, &none.with(2).with(0).with(1))?;
    assert_eq!(rt; out.as_slice(), b"\nwire.\nradio. wire. cut.\n".as_slice());
    Ok(())
}

// A mark that is no atom of the text has no name.
#[test]
fn marks_past_the_atoms(rt: HostRuntime) -> Result<(), Fail> {
    let heap = rt.alloc();
    let atoms = Atoms::new(heap);
    let (_, atoms) = read_text(heap, Text::Plan, RADIO_OR_WIRE.as_bytes(), atoms)?;
    let mut out = Vec::new(heap);
    add_set(&mut out, &atoms, &Row::clear().with(2).with(3).with(95))?;
    assert_eq!(rt; out.as_slice(), b"cut.\n".as_slice());
    Ok(())
}

#[test]
fn counts(rt: HostRuntime) -> Result<(), Fail> {
    let heap = rt.alloc();
    let cases = [
        (0, Ending::Complete, "% 0 answer sets\n"),
        (1_048_576, Ending::Complete, "% 1048576 answer sets\n"),
        (0, Ending::Stopped, "% 0 answer sets, stopped\n"),
        (10, Ending::Stopped, "% 10 answer sets, stopped\n"),
        (
            u64::MAX,
            Ending::Stopped,
            "% 18446744073709551615 answer sets, stopped\n",
        ),
    ];
    for (count, ending, want) in cases {
        let line = count_line(heap, count, ending)?;
        assert_eq!(rt; line.as_bytes(), want.as_bytes());
    }
    Ok(())
}

#[test]
fn refusals(rt: HostRuntime) -> Result<(), Fail> {
    let cases = [
        (Refusal::ManyHeads, "% refused 12 text 1 byte 0\n"),
        (Refusal::GivenHead, "% refused 18 text 1 byte 0\n"),
        (Refusal::Unlisted, "% refused 19 text 1 byte 0\n"),
    ];
    for (refusal, want) in cases {
        let line = refused_line(rt.alloc(), refusal)?;
        assert_eq!(rt; line.as_bytes(), want.as_bytes());
    }
    Ok(())
}

// A word is an order only as a whole, and in small letters.
#[test]
fn words(rt: HostRuntime) {
    assert_eq!(rt; "counting".parse::<Order>(), Ok(Order::Counting));
    assert_eq!(rt; "branching".parse::<Order>(), Ok(Order::Branching));
    for word in ["", "count", "Counting", "branching ", "countingbranching"] {
        assert_eq!(rt; word.parse::<Order>(), Err(UnknownOrder), "{}", word);
    }
}
