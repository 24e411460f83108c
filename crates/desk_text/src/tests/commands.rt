// What lines say.
use crate::command::{Command, Malformed, read_line};
use listing_text::words::Order;
use std::alloc::{AllocError, Global};
use std::test::Fail;

#[test]
fn commands(rt: HostRuntime) {
    let cases: [(&[u8], Command<'static>); 8] = [
        (b"ask\n", Command::Ask(Order::Branching)),
        (b" ask\tcounting \r\n", Command::Ask(Order::Counting)),
        (b"strike", Command::Strike),
        (b"wipe\n", Command::Wipe),
        (b"look 1 007\n", Command::Look { kind: 1, place: 7 }),
        (b"why\n", Command::Why),
        (b"all\n", Command::All),
        (b"help\n", Command::Help),
    ];
    for (line, command) in cases {
        assert_eq!(rt; read_line(line), Ok(command));
    }
}

// The folder is what is left of the line, and may have spaces inside.
#[test]
fn loads(rt: HostRuntime) {
    let cases: [(&[u8], u8, &'static str); 4] = [
        (b"load 1 .\n", 1, "."),
        (b"load 2  sites/my shop \r\n", 2, "sites/my shop"),
        (b"load x .\n", 0, "."),
        (b"load 11 \xC3\xA9", 0, "\u{e9}"),
    ];
    for (line, side, folder) in cases {
        assert_eq!(rt; read_line(line), Ok(Command::Load { side, folder }));
    }
}

#[test]
fn empty_lines(rt: HostRuntime) {
    let cases: [&[u8]; 4] = [b"", b"\n", b"\r\n", b" \t \n"];
    for line in cases {
        assert_eq!(rt; read_line(line), Ok(Command::Nothing));
    }
}

#[test]
fn no_commands(rt: HostRuntime) {
    let cases: [&[u8]; 14] = [
        b"asks\n",
        b"Strike\n",
        b"strike now\n",
        b"str\rike\n",
        b"load 1\n",
        b"load\n",
        b"load 1 \xFF\n",
        b"ask slowly\n",
        b"ask counting branching\n",
        b"look 1\n",
        b"look 1 2 3\n",
        b"look +1 2\n",
        b"look one 2\n",
        b"look 1 18446744073709551616\n",
    ];
    for line in cases {
        assert_eq!(rt; read_line(line), Err(Malformed));
    }
}

// Are the blanks, so many of them, and this end a line that says `wipe`?
fn says_wipe(heap: Global, blanks: usize, end: &[u8]) -> Result<bool, AllocError> {
    let mut line = vec![in heap; b' '; blanks]?;
    line.extend_from_slice(end)?;
    Ok(matches!(read_line(line.as_slice()), Ok(Command::Wipe)))
}

// A line of 4,096 bytes may be a command, a longer one is none.
#[test]
fn long_lines(rt: HostRuntime) -> Result<(), Fail> {
    let heap = rt.alloc();
    assert!(rt; says_wipe(heap, 4_092, b"wipe\r\n")?);
    assert!(rt; !says_wipe(heap, 4_093, b"wipe\r\n")?);
    Ok(())
}
