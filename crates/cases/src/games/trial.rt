// A book with a model beside it: each call goes to both, and both must answer and hold the same.
use crate::games::answers;
use crate::games::known::Known;
use crate::games::model::{Answer, Model};
use crate::games::order::Order;
use crate::games::refused::Refused;
use crate::games::sheet::{are_first_winners, are_winners, is_reason, is_sheet};
use crate::games::solver::Plan;
use crate::games::tally::Tally;
use book::book::Book;
use std::alloc::{AllocError, Global};

// The two, over the games that may be loaded.
#[derive(Drop)]
pub(crate) struct Trial<'a> {
    heap: Global,
    // Those that are loaded, by their places.
    games: &'a [Known],
    tally: &'a mut Tally,
    book: Book,
    model: Model,
}

// The game that the model has loaded.
fn loaded<'a>(games: &'a [Known], model: &Model) -> Option<&'a Known> {
    games.get(model.loaded?)
}

// The plans of the game that is loaded, in the finder's order.
fn plans<'a>(games: &'a [Known], model: &Model, order: Order) -> &'a [Plan] {
    match loaded(games, model) {
        Some(game) => game.plans(order),
        None => &[],
    }
}

// What the model answers.
fn asked(
    games: &[Known],
    model: &mut Model,
    order: Order,
) -> Result<Result<Answer, u8>, AllocError> {
    match loaded(games, model) {
        Some(game) => Ok(Ok(model.ask(game, order)?)),
        None => Ok(Err(11)),
    }
}

impl Trial<'_> {
    // Both are new.
    pub(crate) fn new<'a>(heap: Global, games: &'a [Known], tally: &'a mut Tally) -> Trial<'a> {
        Trial {
            heap,
            games,
            tally,
            book: Book::new(),
            model: Model::new(heap),
        }
    }

    // Reads all that the book holds. Where an ask found no plan, the sheet must be the reason.
    fn read(&mut self, none_wins: bool) -> Result<(), AllocError> {
        let (sheet, sheet_end) = answers::entries(self.heap, &self.book, 1)?;
        let (struck, struck_end) = answers::entries(self.heap, &self.book, 2)?;
        let sheet = sheet.as_slice();
        let struck = struck.as_slice();
        let plans = plans(self.games, &self.model, Order::Counting);
        let end = if self.model.loaded.is_some() { 15 } else { 11 };
        let valid = is_sheet(sheet, plans) && are_winners(struck, plans);
        let reason = !none_wins || is_reason(sheet, struck, plans);
        let same = sheet == self.model.sheet.as_slice() && struck == self.model.struck.as_slice();
        let ended = sheet_end == end && struck_end == end;
        let so = valid && reason && same && ended;
        self.tally.read(sheet.len(), struck.len(), so);
        Ok(())
    }

    // Loads the game at this place.
    pub(crate) fn load(&mut self, place: usize) -> Result<(), AllocError> {
        let Some(known) = self.games.get(place) else {
            return Ok(());
        };
        let got = answers::load(
            &mut self.book,
            self.heap,
            known.game.side,
            known.game.sources(),
        );
        if known.refused.is_none() {
            self.model.load(place);
        }
        self.tally.load(got, known.refused);
        self.read(false)
    }

    // Loads the texts of the game at this place on a side that is none.
    pub(crate) fn load_on(&mut self, place: usize, side: u8) -> Result<(), AllocError> {
        let Some(known) = self.games.get(place) else {
            return Ok(());
        };
        let got = answers::load(&mut self.book, self.heap, side, known.game.sources());
        self.tally.load(got, Some(Refused::WRONG_SIDE));
        self.read(false)
    }

    // Is a plan shown?
    pub(crate) fn ask(&mut self, order: Order) -> Result<bool, AllocError> {
        let got = answers::ask(&mut self.book, order);
        let want = asked(self.games, &mut self.model, order)?;
        self.tally.ask(got, want);
        self.read(want.is_ok_and(|answer| answer.verdict == 2))?;
        Ok(want.is_ok_and(|answer| answer.verdict == 1))
    }

    // Strikes the plan shown.
    pub(crate) fn strike(&mut self) -> Result<(), AllocError> {
        let got = answers::strike(&mut self.book);
        let want = self.model.strike()?;
        self.tally.strike(got, want);
        self.read(false)
    }

    // Looks at one entry.
    pub(crate) fn look(&mut self, kind: u8, place: usize) -> Result<(), AllocError> {
        let got = answers::look(&self.book, kind, place);
        self.tally.look(got, self.model.look(kind, place));
        self.read(false)
    }

    // Forgets all but the loaded game.
    pub(crate) fn wipe(&mut self) -> Result<(), AllocError> {
        self.book.wipe();
        self.model.wipe();
        self.tally.wipe();
        self.read(false)
    }

    // After a game that was played to its end: the struck plans are those that win, in the finder's order.
    pub(crate) fn end(&mut self, order: Order) -> Result<(), AllocError> {
        let (struck, _) = answers::entries(self.heap, &self.book, 2)?;
        let plans = plans(self.games, &self.model, order);
        let so = are_first_winners(struck.as_slice(), plans);
        self.tally.played(so);
        Ok(())
    }
}
