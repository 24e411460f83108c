// Each call can succeed, and what it then tells.
use crate::files::{gathered, lent};
use crate::input::first_byte;
use crate::refusal::write_refusal;
use refusals::fault::{Fault, Text};
use std::io;
use std::io::{Error, ErrorKind, Write};
use std::test::Fail;

#[test]
fn first_bytes(rt: HostRuntime) -> Result<(), Fail> {
    let mut input: &[u8] = b"12";
    assert_eq!(rt; first_byte(&mut input)?, Some(b'1'));
    let mut input: &[u8] = b"";
    assert_eq!(rt; first_byte(&mut input)?, None);
    Ok(())
}

#[test]
fn missing_file(rt: HostRuntime) -> Result<(), Fail> {
    let mut plan = Vec::new(rt.alloc());
    plan.extend_from_slice(b"a.")?;
    let files = gathered(
        rt.alloc(),
        Ok(plan),
        Err(Error::from(ErrorKind::NotFound)),
        Ok(Vec::new(rt.alloc())),
    )?;
    let sources = lent(&files);
    assert_eq!(rt; sources.plan, b"a.".as_slice());
    assert_eq!(rt; sources.faults, b"".as_slice());
    assert_eq!(rt; sources.site, b"".as_slice());
    Ok(())
}

#[test]
fn refusal_written(rt: HostRuntime) -> Result<(), Fail> {
    let mut out = Vec::new(rt.alloc());
    let fault = Fault::Misplaced {
        text: Text::Plan,
        at: 1,
    };
    write_refusal(&mut out, fault)?;
    assert_eq!(rt; out.as_slice(), b"% refused 5 text 1 byte 1\n".as_slice());
    Ok(())
}

// A writer that counts what it is asked to write.
#[derive(Drop)]
struct Calls {
    writes: usize,
}

impl Write for Calls {
    fn write(&mut self, buf: &[u8]) -> io::Result<usize> {
        self.writes = self.writes.saturating_add(1);
        Ok(buf.len())
    }

    fn flush(&mut self) -> io::Result<()> {
        Ok(())
    }
}

#[test]
fn refusal_at_once(rt: HostRuntime) -> Result<(), Fail> {
    let mut out = Calls { writes: 0 };
    write_refusal(&mut out, Fault::WrongSide)?;
    assert_eq!(rt; out.writes, 1);
    Ok(())
}
