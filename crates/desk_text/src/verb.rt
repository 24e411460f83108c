// The word that a command begins with.
ghost use Rattle.desk_text.specs.Verbs.{VerbGives};

use std::str::FromStr;

#[derive(Clone, Copy, PartialEq, Eq, Debug)]
pub(crate) enum Verb {
    Load,
    Ask,
    Strike,
    Wipe,
    Look,
    Why,
    All,
    Help,
}

// A word that begins no command.
#[derive(Clone, Copy, PartialEq, Eq, Debug)]
pub(crate) struct UnknownVerb;

impl FromStr for Verb {
    type Err = UnknownVerb;

    ghost from_str_gives = { VerbGives };

    fn from_str(word: &str) -> Result<Self, UnknownVerb> {
        if word == "load" {
            Ok(Verb::Load)
        } else if word == "ask" {
            Ok(Verb::Ask)
        } else if word == "strike" {
            Ok(Verb::Strike)
        } else if word == "wipe" {
            Ok(Verb::Wipe)
        } else if word == "look" {
            Ok(Verb::Look)
        } else if word == "why" {
            Ok(Verb::Why)
        } else if word == "all" {
            Ok(Verb::All)
        } else if word == "help" {
            Ok(Verb::Help)
        } else {
            Err(UnknownVerb)
        }
    }
}
