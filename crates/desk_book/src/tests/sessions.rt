// What a session prints, from the words of the commands.
use super::texts::{alarm_site, beaten_plans, many_plans, three};
use crate::desk::Desk;
use listing_text::words::Order;
use std::test::Fail;

#[test]
fn alarm(rt: HostRuntime) -> Result<(), Fail> {
    let heap = rt.alloc();
    let mut desk = Desk::new(heap);
    let mut out = Vec::new(heap);
    desk.load(heap, 1, alarm_site(heap)?, &mut out)?;
    desk.ask(heap, Order::Branching, &mut out)?;
    desk.why(heap, &mut out)?;
    desk.look(heap, 1, 0, &mut out)?;
    desk.strike(heap, &mut out)?;
    desk.look(heap, 2, 0, &mut out)?;
    desk.ask(heap, Order::Counting, &mut out)?;
    desk.wipe(&mut out)?;
    desk.all(heap, &mut out)?;
    let lines = b"% loaded 6 rules, 5 atoms\n\
% coherent\n\
% plan\n\
radio.\n\
% pairs 1 struck 0\n\
% wire. is beaten by cut.\n\
% 1 pairs\n\
% plan wire.\n\
% reply cut.\n\
% struck 1\n\
% struck radio.\n\
% coherent\n\
% no plan\n\
% pairs 1 struck 1\n\
% wiped\n\
radio.\n\
% 1 winning plans\n";
    assert_eq!(rt; out.as_slice(), lines.as_slice());
    Ok(())
}

// On side 2 the empty reply beats the empty plan.
#[test]
fn empty_sets(rt: HostRuntime) -> Result<(), Fail> {
    let heap = rt.alloc();
    let mut desk = Desk::new(heap);
    let mut out = Vec::new(heap);
    desk.load(heap, 2, three(heap, b"", b"", b"")?, &mut out)?;
    desk.ask(heap, Order::Branching, &mut out)?;
    desk.look(heap, 1, 0, &mut out)?;
    desk.why(heap, &mut out)?;
    let lines = b"% loaded 0 rules, 0 atoms\n\
% coherent\n\
% no plan\n\
% pairs 1 struck 0\n\
% plan\n\
% reply\n\
% nothing is beaten by nothing\n\
% 1 pairs\n";
    assert_eq!(rt; out.as_slice(), lines.as_slice());
    Ok(())
}

// 64 plans are struck, and one more is shown; the next ask shows it still, and `all` prints no plan twice.
#[test]
fn more_winners(rt: HostRuntime) -> Result<(), Fail> {
    let heap = rt.alloc();
    let mut desk = Desk::new(heap);
    let mut out = Vec::new(heap);
    desk.load(heap, 1, many_plans(heap)?, &mut out)?;
    out.clear();
    desk.all(heap, &mut out)?;
    assert!(rt; out.ends_with(b"\n% 64 winning plans, and more\n"));
    assert!(rt;
        out.starts_with(
            b"no_a. no_b. no_c. no_d. no_e. no_f. no_g.\nno_a. no_b. no_c. no_d. no_e. no_f. g.\n"
        )
    );
    out.clear();
    desk.strike(heap, &mut out)?;
    desk.all(heap, &mut out)?;
    assert_eq!(rt;
        out.as_slice(),
        b"% refused 14 text 0 byte 0\n% 0 winning plans, and more\n".as_slice()
    );
    Ok(())
}

// A full sheet has 256 pairs, and lacks the reasons of the plans after them.
#[test]
fn full_sheet(rt: HostRuntime) -> Result<(), Fail> {
    let heap = rt.alloc();
    let mut desk = Desk::new(heap);
    let mut out = Vec::new(heap);
    desk.load(heap, 1, beaten_plans(heap)?, &mut out)?;
    desk.ask(heap, Order::Branching, &mut out)?;
    assert!(rt; out.ends_with(b"% incoherent\n% no plan\n% pairs 256 struck 0\n"));
    desk.why(heap, &mut out)?;
    assert!(rt; out.ends_with(b"\n% 256 pairs, the sheet is full: it may not hold every reason\n"));
    Ok(())
}
