// Where in a rule a text has come to.
ghost use Rattle.std.specs.Prelude.{◌≡◌};
ghost use Rattle.reading.specs.Steps.{follow, opens_rule, before_literal};
ghost use Rattle.reading.specs.Tokens.{word_of};

use crate::token::Token;

#[derive(Clone, Copy, PartialEq, Eq, Debug)]
pub(crate) enum Phase {
    // A rule may start here, or the text may end.
    Start,
    AfterHead,
    AfterArrow,
    AfterNot,
    AfterLiteral,
    AfterComma,
}

impl Phase {
    // The grammar: where the token leads, or none where it may not stand.
    pub(crate) fn after(self, token: Token<'_>) -> Option<Phase>
        ensures { result ≡ follow self (word_of token.entry) }
    {
        match (self, token) {
            (Phase::Start, Token::Name(_)) => Some(Phase::AfterHead),
            (Phase::Start | Phase::AfterHead, Token::Arrow) => Some(Phase::AfterArrow),
            (Phase::AfterArrow | Phase::AfterNot | Phase::AfterComma, Token::Name(_)) => Some(
                Phase::AfterLiteral,
            ),
            (Phase::AfterArrow | Phase::AfterComma, Token::Not) => Some(Phase::AfterNot),
            (Phase::AfterLiteral, Token::Comma) => Some(Phase::AfterComma),
            (Phase::AfterHead | Phase::AfterArrow | Phase::AfterLiteral, Token::Dot) => Some(
                Phase::Start,
            ),
            _ => None,
        }
    }

    pub(crate) fn opens_rule(self) -> bool
        ensures { result ≡ opens_rule self }
    {
        matches!(self, Phase::Start)
    }

    pub(crate) fn before_literal(self) -> bool
        ensures { result ≡ before_literal self }
    {
        matches!(self, Phase::AfterArrow | Phase::AfterComma)
    }
}
