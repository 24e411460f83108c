// Reports of a small site.
use closure::row::Row;
use loading::sources::Sources;
use refusals::fault::Fault;
use report::verdict::report;
use std::alloc::Global;
use std::process::Abort;
use std::test::Fail;

static SMALL: Sources<'static> = Sources {
    plan: b"radio :- not wire. wire :- not radio.",
    faults: b"cut :- not quiet. quiet :- not cut.",
    site: b"dead :- wire, cut. :- dead.",
};

// `want` is written, and the bytes after it are kept.
fn check_report(
    rt: &impl Abort,
    heap: Global,
    coherent: bool,
    shown: Option<Row<96>>,
    want: &[u8],
) -> Result<(), Fail> {
    let mut buffer = [b'x'; 64];
    let length = report(heap, SMALL, coherent, shown, &mut buffer)?;
    assert_eq!(rt; &buffer[0..length], want);
    assert_eq!(rt; &buffer[length..64], &[b'x'; 64][length..64]);
    Ok(())
}

#[test]
fn plans(rt: HostRuntime) -> Result<(), Fail> {
    let heap = rt.alloc();
    let none = Row::clear();
    let radio = none.with(0);
    check_report(
        &rt,
        heap,
        true,
        Some(radio),
        b"% coherent\n% plan\nradio.\n",
    )?;
    check_report(
        &rt,
        heap,
        false,
        Some(radio),
        b"% incoherent\n% plan\nradio.\n",
    )?;
    check_report(&rt, heap, true, Some(none), b"% coherent\n% plan\n")?;
    check_report(&rt, heap, true, None, b"% coherent\n% no plan\n")?;
    check_report(&rt, heap, false, None, b"% incoherent\n% no plan\n")
}

// Every atom that is marked has its line, of whichever text, in the order of the numbers.
#[test]
fn atoms(rt: HostRuntime) -> Result<(), Fail> {
    let heap = rt.alloc();
    let row = Row::clear().with(4).with(1).with(2);
    check_report(
        &rt,
        heap,
        true,
        Some(row),
        b"% coherent\n% plan\nwire.\ncut.\ndead.\n",
    )?;
    check_report(
        &rt,
        heap,
        false,
        Some(row.with(3).with(0)),
        b"% incoherent\n% plan\nradio.\nwire.\ncut.\nquiet.\ndead.\n",
    )
}

// The report fits a buffer of its own length, and no shorter one, which is kept.
#[test]
fn room(rt: HostRuntime) {
    let heap = rt.alloc();
    let radio = Some(Row::clear().with(0));
    let mut exact = [b'x'; 25];
    let fits = report(heap, SMALL, true, radio, &mut exact);
    assert_eq!(rt; fits, Ok(25));
    assert_eq!(rt; &exact, b"% coherent\n% plan\nradio.\n");
    let mut short = [b'x'; 24];
    let lacks = report(heap, SMALL, true, radio, &mut short);
    assert_eq!(rt; lacks, Err(Fault::NoRoom));
    assert_eq!(rt; short, [b'x'; 24]);
}

// A report that is refused for this cause, text and byte, and leaves its buffer.
fn check_refused(
    rt: &impl Abort,
    heap: Global,
    plan: &[u8],
    shown: Option<Row<96>>,
    want: (u8, u8, usize),
) {
    let sources = Sources {
        plan,
        faults: b"",
        site: b"",
    };
    let mut buffer = [b'x'; 8];
    let got = match report(heap, sources, true, shown, &mut buffer) {
        Ok(_) => (0, 0, 0),
        Err(fault) => (fault.cause(), fault.text(), fault.byte()),
    };
    assert_eq!(rt; got, want);
    assert_eq!(rt; buffer, [b'x'; 8]);
}

// Questions 2 to 8, then 16 for a plan that is shown, then 17.
#[test]
fn refused(rt: HostRuntime) {
    let heap = rt.alloc();
    let known = Row::clear().with(1);
    for mark in [2, 3, 95] {
        check_refused(&rt, heap, b"a :- b.", Some(known.with(mark)), (16, 0, 0));
        check_refused(&rt, heap, b"a :- B.", Some(known.with(mark)), (3, 1, 5));
    }
    check_refused(&rt, heap, b"a", None, (5, 1, 1));
    check_refused(&rt, heap, b"a :- b.", Some(known), (17, 0, 0));
    check_refused(&rt, heap, b"", Some(known), (16, 0, 0));
    check_refused(&rt, heap, b"", None, (17, 0, 0));
}
