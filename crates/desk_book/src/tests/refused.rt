// A refused call prints its line, and the book is as before.
use super::texts::{alarm_site, many_plans, three};
use crate::desk::Desk;
use listing_text::words::Order;
use std::alloc::{AllocError, Global};
use std::test::Fail;

// A desk with the small site, a plan shown and a pair on the sheet.
fn asked(heap: Global) -> Result<Desk, AllocError> {
    let mut desk = Desk::new(heap);
    let mut out = Vec::new(heap);
    desk.load(heap, 1, alarm_site(heap)?, &mut out)?;
    desk.ask(heap, Order::Branching, &mut out)?;
    Ok(desk)
}

// What the book holds, as the desk tells it without a change.
fn held(heap: Global, desk: &Desk) -> Result<Vec<u8>, AllocError> {
    let mut out = Vec::new(heap);
    desk.why(heap, &mut out)?;
    for place in 0..65 {
        desk.look(heap, 2, place, &mut out)?;
    }
    Ok(out)
}

#[test]
fn nothing_loaded(rt: HostRuntime) -> Result<(), Fail> {
    let heap = rt.alloc();
    let mut desk = Desk::new(heap);
    let before = held(heap, &desk)?;
    let mut out = Vec::new(heap);
    desk.ask(heap, Order::Branching, &mut out)?;
    desk.strike(heap, &mut out)?;
    desk.look(heap, 3, 0, &mut out)?;
    desk.why(heap, &mut out)?;
    desk.all(heap, &mut out)?;
    let line = b"% refused 11 text 0 byte 0\n";
    assert_eq!(rt; out.len(), 5 * line.len());
    assert!(rt; out.starts_with(line) && out.ends_with(line));
    assert_eq!(rt; held(heap, &desk)?, before);
    Ok(())
}

// A load that is refused keeps the texts, the sheet and the plan shown.
#[test]
fn loads(rt: HostRuntime) -> Result<(), Fail> {
    let heap = rt.alloc();
    let mut desk = asked(heap)?;
    let before = held(heap, &desk)?;
    let mut out = Vec::new(heap);
    desk.load(heap, 0, three(heap, b"", b"", b"")?, &mut out)?;
    desk.load(heap, 1, three(heap, b"a.", b"b. c", b"")?, &mut out)?;
    assert_eq!(rt;
        out.as_slice(),
        b"% refused 1 text 0 byte 0\n% refused 5 text 2 byte 4\n".as_slice()
    );
    assert_eq!(rt; held(heap, &desk)?, before);
    out.clear();
    desk.strike(heap, &mut out)?;
    assert_eq!(rt; out.as_slice(), b"% struck 1\n".as_slice());
    Ok(())
}

#[test]
fn looks_and_strikes(rt: HostRuntime) -> Result<(), Fail> {
    let heap = rt.alloc();
    let mut desk = asked(heap)?;
    let mut out = Vec::new(heap);
    desk.strike(heap, &mut out)?;
    let before = held(heap, &desk)?;
    out.clear();
    desk.strike(heap, &mut out)?;
    desk.look(heap, 1, 1, &mut out)?;
    desk.look(heap, 2, 1, &mut out)?;
    desk.look(heap, 257, 0, &mut out)?;
    let lines = b"% refused 13 text 0 byte 0\n\
% refused 15 text 0 byte 0\n\
% refused 15 text 0 byte 0\n\
% refused 15 text 0 byte 0\n";
    assert_eq!(rt; out.as_slice(), lines.as_slice());
    assert_eq!(rt; held(heap, &desk)?, before);
    Ok(())
}

// The counting finder takes at most 24 heads.
#[test]
fn too_many_heads(rt: HostRuntime) -> Result<(), Fail> {
    let heap = rt.alloc();
    let mut desk = asked(heap)?;
    let mut plan = Vec::new(heap);
    for letter in b'a'..b'z' {
        plan.push(letter)?;
        plan.push(b'.')?;
    }
    let mut texts = three(heap, b"", b"", b"")?;
    texts.plan = plan;
    let mut out = Vec::new(heap);
    desk.load(heap, 1, texts, &mut out)?;
    let before = held(heap, &desk)?;
    out.clear();
    desk.ask(heap, Order::Counting, &mut out)?;
    assert_eq!(rt; out.as_slice(), b"% refused 12 text 0 byte 0\n".as_slice());
    assert_eq!(rt; held(heap, &desk)?, before);
    Ok(())
}

// With 64 plans struck the plan shown stays shown.
#[test]
fn struck_full(rt: HostRuntime) -> Result<(), Fail> {
    let heap = rt.alloc();
    let mut desk = Desk::new(heap);
    let mut out = Vec::new(heap);
    desk.load(heap, 1, many_plans(heap)?, &mut out)?;
    desk.all(heap, &mut out)?;
    let before = held(heap, &desk)?;
    out.clear();
    desk.strike(heap, &mut out)?;
    desk.strike(heap, &mut out)?;
    assert_eq!(rt;
        out.as_slice(),
        b"% refused 14 text 0 byte 0\n% refused 14 text 0 byte 0\n".as_slice()
    );
    assert_eq!(rt; held(heap, &desk)?, before);
    Ok(())
}
