// What a text may be and what three texts may be, in the grammar's own words, and that reading and loading accept exactly that.
#![tactic(auto)]

ghost use Rattle.grammar.specs.Accepted.{ReadIsSpelled, SpelledIsRead, OneReading};
ghost use Rattle.grammar.specs.Loaded.{LoadedIsAllowed, AllowedIsLoaded, OneLoading};

// A text that is read without refusal is rules of the grammar within the limits, and what is read is those rules over numbered atoms.
pub fn read_is_spelled()
    ensures { ReadIsSpelled }
{}

// A text of such rules is read without refusal, and what is read is those rules.
pub fn spelled_is_read()
    ensures { SpelledIsRead }
{}

// Each text has one reading, and no more.
pub fn one_reading()
    ensures { OneReading }
{}

// A side and three texts that load are allowed by the format, and what is loaded is what they mean.
pub fn loaded_is_allowed()
    ensures { LoadedIsAllowed }
{}

// A side and three texts that the format allows load, and what is loaded is what they mean.
pub fn allowed_is_loaded()
    ensures { AllowedIsLoaded }
{}

// A side and three texts have one outcome, and no more.
pub fn one_loading()
    ensures { OneLoading }
{}
