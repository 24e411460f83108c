// The line that tells a refusal, as `% refused 5 text 1 byte 1`.
ghost use Rattle.std.specs.Prelude.{◌≡◌, ◌+◌, ◌<◌, ◌≤◌, ◌++◌, length, Some, MatchResult};
ghost use Rattle.std.specs.Fmt.InlineText.{inline_text};
ghost use Rattle.refusals.specs.Line.{Told, Untold, refusal};

use crate::fault::Fault;
use crate::room::write_whole;
use itoa::Buffer;
use std::fmt;
use std::fmt::InlineText;

// Twenty-three fixed bytes, and three numbers of at most twenty digits.
const LONGEST: usize = 83;

// The text with `part` after it.
fn joined(text: InlineText<LONGEST>, part: &str) -> InlineText<LONGEST>
    requires { length (inline_text text) + length part.now ≤ LONGEST }
    ensures text { inline_text result ≡ inline_text text ++ part.now }
    ensures long { length (inline_text result) ≡ length (inline_text text) + length part.now }
{
    text.and_str(part, LONGEST)
}

// The line without its line feed.
fn refusal_text(fault: Fault) -> InlineText<LONGEST>
    ensures text { inline_text result ≡ refusal fault }
    ensures room { length (inline_text result) < LONGEST }
{
    let mut digits = Buffer::new();
    let mut text = joined(InlineText::new(), "% refused ");
    text = joined(text, digits.format(fault.cause()));
    text = joined(text, " text ");
    text = joined(text, digits.format(fault.text()));
    text = joined(text, " byte ");
    joined(text, digits.format(fault.byte()))
}

impl fmt::Display for Fault {
    ghost output = { λ f. Some (refusal f) };

    fn fmt<W: fmt::Write>(&self, f: &mut fmt::Formatter<W>) -> fmt::Result {
        f.write_str(refusal_text(*self).as_str())
    }
}

// Writes the line and a line feed at the start of `out`, where they fit, and gives their length.
pub fn refusal_line(fault: Fault, out: &mut [u8]) -> Result<usize, Fault>
    ensures { MatchResult result (Told fault out.old out.new) (Untold fault out.old out.new) }
{
    let line = joined(refusal_text(fault), "\n");
    write_whole(line.as_str().as_bytes(), out)
}

#[cfg(test)]
mod tests {
    use super::refusal_line;
    use crate::fault::{Fault, Text};
    use std::process::Abort;
    use std::test::Fail;

    // `line` is written, and the bytes after it are kept.
    fn tells(rt: &impl Abort, fault: Fault, line: &[u8]) -> Result<(), Fail> {
        let mut out = [b'x'; 48];
        let end = refusal_line(fault, &mut out)?;
        assert_eq!(rt; &out[0..end], line);
        assert_eq!(rt; &out[end..48], &[b'x'; 48][end..48]);
        Ok(())
    }

    #[test]
    fn places(rt: HostRuntime) -> Result<(), Fail> {
        tells(
            &rt,
            Fault::Misplaced {
                text: Text::Plan,
                at: 1,
            },
            b"% refused 5 text 1 byte 1\n",
        )?;
        tells(
            &rt,
            Fault::TakenHead {
                text: Text::Site,
                at: 16384,
            },
            b"% refused 9 text 3 byte 16384\n",
        )?;
        tells(
            &rt,
            Fault::NoToken {
                text: Text::Faults,
                at: usize::MAX,
            },
            b"% refused 3 text 2 byte 18446744073709551615\n",
        )
    }

    #[test]
    fn no_places(rt: HostRuntime) -> Result<(), Fail> {
        tells(&rt, Fault::WrongSide, b"% refused 1 text 0 byte 0\n")?;
        tells(
            &rt,
            Fault::LongText { text: Text::Faults },
            b"% refused 2 text 2 byte 0\n",
        )?;
        tells(&rt, Fault::NoAtom, b"% refused 16 text 0 byte 0\n")?;
        tells(&rt, Fault::NoMemory, b"% refused 99 text 0 byte 0\n")
    }

    #[test]
    fn fits(rt: HostRuntime) {
        let mut out = [b'x'; 26];
        assert_eq!(rt; refusal_line(Fault::WrongSide, &mut out), Ok(26));
        assert_eq!(rt; &out, b"% refused 1 text 0 byte 0\n");
    }

    #[test]
    fn lacks_a_byte(rt: HostRuntime) {
        let mut out = [b'x'; 25];
        assert_eq!(rt;
            refusal_line(Fault::WrongSide, &mut out),
            Err(Fault::NoRoom)
        );
        assert_eq!(rt; out, [b'x'; 25]);
    }
}
