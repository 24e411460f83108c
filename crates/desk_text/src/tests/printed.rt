// The lines that are printed go behind what was there.
use crate::lines::{
    add_fault, add_loaded, add_pair, add_reason, add_reasons, add_refused, add_sizes, add_struck,
    add_struck_plan, add_winners, help_lines, no_command_line, unread_line, wiped_line,
};
use closure::row::Row;
use listing_text::lines::Ending;
use reading::table::Atoms;
use reading::text::read_text;
use refusals::fault::{Fault, Text};
use std::test::Fail;

#[test]
fn numbers(rt: HostRuntime) -> Result<(), Fail> {
    let heap = rt.alloc();
    let mut out = Vec::new(heap);
    add_loaded(heap, &mut out, 6, 5)?;
    add_refused(heap, &mut out, 11)?;
    add_fault(
        heap,
        &mut out,
        Fault::Misplaced {
            text: Text::Faults,
            at: 12,
        },
    )?;
    add_sizes(heap, &mut out, 256, 64)?;
    add_struck(heap, &mut out, 1)?;
    add_winners(heap, &mut out, 3, Ending::Complete)?;
    add_winners(heap, &mut out, 64, Ending::Stopped)?;
    let lines = b"% loaded 6 rules, 5 atoms\n\
% refused 11 text 0 byte 0\n\
% refused 5 text 2 byte 12\n\
% pairs 256 struck 64\n\
% struck 1\n\
% 3 winning plans\n\
% 64 winning plans, and more\n";
    assert_eq!(rt; out.as_slice(), lines.as_slice());
    Ok(())
}

#[test]
fn sheets(rt: HostRuntime) -> Result<(), Fail> {
    let heap = rt.alloc();
    let mut out = Vec::new(heap);
    add_reasons(heap, &mut out, 0)?;
    add_reasons(heap, &mut out, 255)?;
    add_reasons(heap, &mut out, 256)?;
    let lines = b"% 0 pairs\n\
% 255 pairs\n\
% 256 pairs, the sheet is full: it may not hold every reason\n";
    assert_eq!(rt; out.as_slice(), lines.as_slice());
    Ok(())
}

#[test]
fn sets(rt: HostRuntime) -> Result<(), Fail> {
    let heap = rt.alloc();
    let text = "radio :- not wire. wire :- not radio.";
    let (_, atoms) = read_text(heap, Text::Plan, text.as_bytes(), Atoms::new(heap))?;
    let atoms = atoms.entries();
    let none = Row::clear();
    let both = none.with(0).with(1);
    let mut out = Vec::new(heap);
    add_pair(&mut out, atoms, &both, &none)?;
    add_struck_plan(&mut out, atoms, &none.with(1))?;
    add_reason(&mut out, atoms, &both, &none)?;
    add_reason(&mut out, atoms, &none, &none.with(0))?;
    let lines = b"% plan radio. wire.\n\
% reply\n\
% struck wire.\n\
% radio. wire. is beaten by nothing\n\
% nothing is beaten by radio.\n";
    assert_eq!(rt; out.as_slice(), lines.as_slice());
    Ok(())
}

// A line that never changes ends in a line feed, and begins as every line that is no set.
#[test]
fn fixed(rt: HostRuntime) {
    for line in [wiped_line(), no_command_line(), unread_line(), help_lines()] {
        assert!(rt; line.starts_with(b"% ") && line.ends_with(b"\n"));
    }
}
