// The refusals of the calls that read texts: a case each, with the text and the byte that it carries.
ghost use Rattle.std.specs.Prelude.{◌≡◌};
ghost use Rattle.refusals.specs.Numbers.{number, number_of, text_of, byte_of};
ghost use Rattle.refusals.specs.declared.fault.Fault.TheVariants.{NoMemory};

use std::alloc::{AllocError, AllocFailed};

// Which of the three texts.
#[derive(Clone, Copy, PartialEq, Eq, Debug)]
pub enum Text {
    Plan,
    Faults,
    Site,
}

#[derive(Clone, Copy, PartialEq, Eq, Debug)]
pub enum Fault {
    // The side is neither 1 nor 2.
    WrongSide,
    // The text has more than 16,384 bytes.
    LongText { text: Text },
    // No token starts at this byte.
    NoToken { text: Text, at: usize },
    // The name has more than 32 bytes.
    LongName { text: Text, at: usize },
    // The grammar does not allow this token, or the end of the text, here.
    Misplaced { text: Text, at: usize },
    // The body has more than 16 literals.
    LongBody { text: Text, at: usize },
    // The text has more than 256 rules.
    ManyRules { text: Text, at: usize },
    // The three texts have more than 96 different atoms.
    ManyAtoms { text: Text, at: usize },
    // This head stands in an earlier text.
    TakenHead { text: Text, at: usize },
    // The rule at this byte of the site text breaks the strata.
    Unstratified { at: usize },
    // A named or marked number is no atom of the texts.
    NoAtom,
    // What is to be written does not fit the buffer.
    NoRoom,
    // No memory was to be had.
    NoMemory,
}

impl Text {
    // 1, 2 or 3.
    pub fn number(self) -> u8
        ensures { result ≡ number self }
    {
        match self {
            Text::Plan => 1,
            Text::Faults => 2,
            Text::Site => 3,
        }
    }
}

impl Fault {
    // The number of the question that was answered with no.
    pub fn cause(self) -> u8
        ensures { result ≡ number_of self }
    {
        match self {
            Fault::WrongSide => 1,
            Fault::LongText { .. } => 2,
            Fault::NoToken { .. } => 3,
            Fault::LongName { .. } => 4,
            Fault::Misplaced { .. } => 5,
            Fault::LongBody { .. } => 6,
            Fault::ManyRules { .. } => 7,
            Fault::ManyAtoms { .. } => 8,
            Fault::TakenHead { .. } => 9,
            Fault::Unstratified { .. } => 10,
            Fault::NoAtom => 16,
            Fault::NoRoom => 17,
            Fault::NoMemory => 99,
        }
    }

    // The number of the text, or 0.
    pub fn text(self) -> u8
        ensures { result ≡ text_of self }
    {
        match self {
            Fault::WrongSide | Fault::NoAtom | Fault::NoRoom | Fault::NoMemory => 0,
            Fault::LongText { text }
            | Fault::NoToken { text, .. }
            | Fault::LongName { text, .. }
            | Fault::Misplaced { text, .. }
            | Fault::LongBody { text, .. }
            | Fault::ManyRules { text, .. }
            | Fault::ManyAtoms { text, .. }
            | Fault::TakenHead { text, .. } => text.number(),
            Fault::Unstratified { .. } => Text::Site.number(),
        }
    }

    // The byte of that text, from 0, or 0.
    pub fn byte(self) -> usize
        ensures { result ≡ byte_of self }
    {
        match self {
            Fault::WrongSide
            | Fault::NoAtom
            | Fault::NoRoom
            | Fault::NoMemory
            | Fault::LongText { .. } => 0,
            Fault::NoToken { at, .. }
            | Fault::LongName { at, .. }
            | Fault::Misplaced { at, .. }
            | Fault::LongBody { at, .. }
            | Fault::ManyRules { at, .. }
            | Fault::ManyAtoms { at, .. }
            | Fault::TakenHead { at, .. }
            | Fault::Unstratified { at } => at,
        }
    }
}

impl From<AllocError> for Fault {
    ghost from_gives = { λ _ r. r ≡ NoMemory };

    fn from(_e: AllocError) -> Self {
        Self::NoMemory
    }
}

impl<T: Drop> From<AllocFailed<T>> for Fault {
    ghost from_gives = { λ _ r. r ≡ NoMemory };

    fn from(_e: AllocFailed<T>) -> Self {
        Self::from(AllocError)
    }
}
