// How a load opens a book.
ghost use Rattle.std.specs.Prelude.{◌≡◌, MatchResult};
ghost use Rattle.game.specs.Strata.{Stratified as IsStratified};
ghost use Rattle.loading.specs.Read.{three_of};
ghost use Rattle.loading.specs.Sided.{side_of};
ghost use Rattle.runs.proofs.Readable.{Readable};
ghost use Rattle.runs.specs.Book.{texts_of};
ghost use Rattle.book.specs.Models.{texts_from};
ghost use Rattle.book.specs.Opened.{Opens};

use super::{MOST_PAIRS, MOST_STRUCK, Open};
use crate::loaded::Loaded;
use loading::games::{Game, read_game};
use loading::sources::Sources;
use refusals::fault::Fault;
use solving::stratified::Stratified;
use std::alloc::Global;

// The side and the programs of a game that passed every question.
fn loaded(game: Game) -> Loaded
    requires { (Readable (texts_of (side_of game.side, three_of game.texts))) × (IsStratified (three_of game.texts).site.rules) }
    ensures { texts_from result ≡ texts_of (side_of game.entry.side, three_of game.entry.texts) }
{
    let side = game.side;
    let programs = game.texts.into_programs();
    let Ok(site) = Stratified::new(programs.site) else {
        unreachable()
    };
    Loaded {
        side,
        plan: programs.plan,
        faults: programs.faults,
        site,
    }
}

// The book that these texts open, with nothing struck, noted or shown.
pub(crate) fn open(heap: Global, side: u8, sources: Sources<'_>) -> Result<Open, Fault>
    ensures { Opens side sources.entry.plan.now sources.entry.faults.now sources.entry.site.now result }
{
    let game = read_game(heap, side, sources)?;
    let struck = Vec::with_capacity(heap, MOST_STRUCK)?;
    let sheet = Vec::with_capacity(heap, MOST_PAIRS)?;
    Ok(Open {
        loaded: loaded(game),
        struck,
        sheet,
        shown: None,
    })
}
