// What a book answers, as plain things.
use crate::games::model::{Answer, Pair};
use crate::games::order::Order;
use crate::games::refused::Refused;
use crate::subset::{ATOMS, Subset};
use book::book::Book;
use closure::row::Row;
use finders::branching::Branching;
use finders::counting::Counting;
use loading::sources::Sources;
use std::alloc::{AllocError, Global};

// A row that is no set of a game.
fn stale() -> Row<96> {
    let mut row = Row::clear();
    row.put(1);
    row.put(95);
    row
}

// The set of the row's atoms; none where it has one that no game has.
fn set_of(row: &Row<96>) -> Option<Subset> {
    let set = Subset::union((0..ATOMS).filter(|atom| row.has(*atom)).map(Subset::one));
    let wide = (ATOMS..96u16).any(|atom| row.has(atom));
    if wide { None } else { Some(set) }
}

// The refusal, if it is refused.
pub(crate) fn load(
    book: &mut Book,
    heap: Global,
    side: u8,
    sources: Sources<'_>,
) -> Option<Refused> {
    book.load(heap, side, sources).err().map(Refused::told)
}

// The answer with the row, or the number of the refusal; 0 where the row is no set of a game, or where a refusal touched it.
pub(crate) fn ask(book: &mut Book, order: Order) -> Result<Answer, u8> {
    let mut row = stale();
    let told = match order {
        Order::Counting => book.ask(&Counting, &mut row),
        Order::Branching => book.ask(&Branching, &mut row),
    };
    match told {
        Ok(told) => Ok(Answer {
            verdict: u8::from(told.verdict),
            coherence: u8::from(told.coherence),
            pairs: told.pairs,
            struck: told.struck,
            row: set_of(&row).ok_or(0)?,
        }),
        Err(refusal) if row == stale() => Err(refusal.cause()),
        Err(_) => Err(0),
    }
}

// The number of the refusal, if it is refused.
pub(crate) fn strike(book: &mut Book) -> Option<u8> {
    book.strike().err().map(|refusal| refusal.cause())
}

// The entry, or the number of the refusal; 0 where a row is no set of a game, or where a refusal touched one.
pub(crate) fn look(book: &Book, kind: u8, place: usize) -> Result<Pair, u8> {
    let mut plan = stale();
    let mut reply = stale();
    match book.look(kind, place, &mut plan, &mut reply) {
        Ok(()) => Ok(Pair {
            plan: set_of(&plan).ok_or(0)?,
            reply: set_of(&reply).ok_or(0)?,
        }),
        Err(refusal) if plan == stale() && reply == stale() => Err(refusal.cause()),
        Err(_) => Err(0),
    }
}

// All entries of a kind, and the number with which the place behind them is refused.
pub(crate) fn entries(heap: Global, book: &Book, kind: u8) -> Result<(Vec<Pair>, u8), AllocError> {
    let mut found = Vec::new(heap);
    for place in 0..300 {
        match look(book, kind, place) {
            Ok(pair) => found.push(pair)?,
            Err(cause) => return Ok((found, cause)),
        }
    }
    Ok((found, 0))
}
