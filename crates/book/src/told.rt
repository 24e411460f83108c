// What the calls of a book answer.
ghost use Rattle.std.specs.Prelude.{◌≡◌};
ghost use Rattle.book.specs.Answers.{verdict_model, coherence_model, refusal_model};
ghost use Rattle.runs.specs.Book.{verdict_number, coherence_number, refusal_number};

// What an ask says of the plans that are not struck.
#[derive(Clone, Copy, PartialEq, Eq, Debug)]
pub enum Verdict {
    // One wins, and is shown.
    PlanShown,
    // None wins.
    NoPlan,
}

// What an ask says of the loaded texts, struck plans included.
#[derive(Clone, Copy, PartialEq, Eq, Debug)]
pub enum Coherence {
    Coherent,
    Incoherent,
}

// Why a call is refused, other than a load.
#[derive(Clone, Copy, PartialEq, Eq, Debug)]
pub enum Refusal {
    // Nothing is loaded.
    NothingLoaded,
    // The plan text or the fault text has more heads than the finder's most.
    TooManyHeads,
    // No plan is shown.
    NoneShown,
    // 64 plans are struck.
    StruckFull,
    // Kind and place name no stored entry.
    NoEntry,
}

// What an ask that is not refused answers, besides the row.
#[derive(Clone, Copy, PartialEq, Eq, Debug)]
pub struct Told {
    pub verdict: Verdict,
    pub coherence: Coherence,
    pub pairs: usize,
    pub struck: usize,
}

impl From<Verdict> for u8 {
    ghost from_gives = { λ verdict r. r ≡ verdict_number (verdict_model verdict) };

    fn from(verdict: Verdict) -> u8 {
        match verdict {
            Verdict::PlanShown => 1,
            Verdict::NoPlan => 2,
        }
    }
}

impl From<Coherence> for u8 {
    ghost from_gives = { λ coherence r. r ≡ coherence_number (coherence_model coherence) };

    fn from(coherence: Coherence) -> u8 {
        match coherence {
            Coherence::Coherent => 1,
            Coherence::Incoherent => 2,
        }
    }
}

impl Refusal {
    // The number of the question that was answered with no.
    pub fn cause(self) -> u8
        ensures { result ≡ refusal_number (refusal_model self) }
    {
        match self {
            Refusal::NothingLoaded => 11,
            Refusal::TooManyHeads => 12,
            Refusal::NoneShown => 13,
            Refusal::StruckFull => 14,
            Refusal::NoEntry => 15,
        }
    }
}
