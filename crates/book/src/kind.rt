// What a look is put to.
ghost use Rattle.book.specs.Kinds.{KindGives};

use crate::told::Refusal;

#[derive(Clone, Copy, PartialEq, Eq, Debug)]
pub(crate) enum Kind {
    // A pair of the sheet.
    Pair,
    // A struck plan.
    Struck,
}

impl TryFrom<u8> for Kind {
    type Error = Refusal;

    ghost try_from_gives = { KindGives };

    fn try_from(kind: u8) -> Result<Kind, Refusal> {
        match kind {
            1 => Ok(Kind::Pair),
            2 => Ok(Kind::Struck),
            _ => Err(Refusal::NoEntry),
        }
    }
}
