// Reads a whole text.
ghost use Rattle.std.specs.Prelude.{◌≤◌, length};
ghost use Rattle.reading.specs.Sections.{Gives};
ghost use Rattle.reading.specs.Tables.{standings_of};

use crate::draft::Draft;
use crate::lexer::Lexer;
use crate::section::Section;
use crate::table::Atoms;
use refusals::fault::{Fault, Text};
use std::alloc::Global;

const LONGEST_TEXT: usize = 16_384;

// The rules of a text, with the atoms of the texts before it and its own; or the one refusal.
pub fn read_text<'a>(
    heap: Global,
    text: Text,
    bytes: &'a [u8],
    atoms: Atoms<'a>,
) -> Result<(Section, Atoms<'a>), Fault>
    ensures { Gives text bytes.now (standings_of atoms.entry) result }
{
    if bytes.len() > LONGEST_TEXT {
        return Err(Fault::LongText { text });
    }
    let mut lexer = Lexer::new(text, bytes);
    let mut draft = Draft::new(heap, atoms);
    while let Some(spot) = lexer.next()? {
        draft.take(text, spot)?;
    }
    draft.finish(text, bytes.len())
}
