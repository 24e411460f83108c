// How a refusal is printed.
ghost use Rattle.std.specs.Prelude.{OnOk};
ghost use Rattle.std.specs.Io.KnownBytes.{Appends};
ghost use Rattle.refusals.specs.Line.{line};

use refusals::fault::Fault;
use refusals::line::refusal_line;
use std::io;
use std::io::{ErrorKind, Write};

// Longer than any refusal's line: twenty-three fixed bytes, and three numbers of at most twenty digits.
const LINE_ROOM: usize = 128;

// Writes the refusal's line, whole and at once.
pub fn write_refusal<W: Write>(out: &mut W, fault: Fault) -> io::Result<()>
    ensures { OnOk result (Appends (W.contents out.old) (W.contents out.new) (line fault)) }
{
    let mut line = [0u8; LINE_ROOM];
    let Ok(length) = refusal_line(fault, &mut line) else {
        return Err(io::Error::from(ErrorKind::WriteZero));
    };
    out.write_all(&line[0..length])
}
