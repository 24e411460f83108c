// What a load of a game must answer.
use crate::games::texts::{Game, Text};
use crate::subset::Subset;
use crate::textbook::Textbook;
use refusals::fault::Fault;
use std::alloc::{AllocError, Global};

// The number of the question that is answered with no, the text and the byte.
#[derive(Clone, Copy, PartialEq, Eq)]
pub(crate) struct Refused {
    pub(crate) cause: u8,
    pub(crate) text: u8,
    pub(crate) byte: usize,
}

impl Refused {
    // The side is neither 1 nor 2.
    pub(crate) const WRONG_SIDE: Refused = Refused {
        cause: 1,
        text: 0,
        byte: 0,
    };

    // What a load told.
    pub(crate) fn told(fault: Fault) -> Refused {
        Refused {
            cause: fault.cause(),
            text: fault.text(),
            byte: fault.byte(),
        }
    }
}

// The first damage in the order of the texts.
fn damaged(game: &Game) -> Option<Refused> {
    let texts = [
        (1, game.plan.damage),
        (2, game.faults.damage),
        (3, game.site.damage),
    ];
    texts.iter().find_map(|(text, damage)| damage.map(|damage| Refused {
        cause: damage.cause,
        text: *text,
        byte: damage.byte,
    }))
}

// The first head of the text that is one of these names.
fn taken(text: &Text, number: u8, names: Subset) -> Option<Refused> {
    let place = text
        .lines
        .iter()
        .position(|line| line.head.is_some_and(|head| names.has(head)))?;
    refused_at(text, number, 9, place)
}

// Refused for the rule at this place.
fn refused_at(text: &Text, number: u8, cause: u8, place: usize) -> Option<Refused> {
    let byte = text.places.get(place)?;
    Some(Refused {
        cause,
        text: number,
        byte: *byte,
    })
}

// The first rule of the site text that breaks the strata.
fn unstratified(heap: Global, site: &Text) -> Result<Option<Refused>, AllocError> {
    let textbook = Textbook::of(heap, site.lines.as_slice())?;
    Ok(
        textbook
            .first_break()
            .and_then(|place| refused_at(site, 3, 10, place)),
    )
}

// The questions of a load in their order; none where all are passed.
pub(crate) fn refusal_of(heap: Global, game: &Game) -> Result<Option<Refused>, AllocError> {
    if game.side != 1 && game.side != 2 {
        return Ok(Some(Refused::WRONG_SIDE));
    }
    let plan = game.plan.names();
    let both = plan.or(game.faults.names());
    let early = damaged(game)
        .or_else(|| taken(&game.faults, 2, plan))
        .or_else(|| taken(&game.site, 3, both));
    match early {
        Some(refused) => Ok(Some(refused)),
        None => unstratified(heap, &game.site),
    }
}
