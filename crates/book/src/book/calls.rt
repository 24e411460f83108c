// The calls of a book.
ghost use Rattle.std.specs.Prelude.{◌≡◌};
ghost use Rattle.runs.specs.Book.{Goes, ask, strike, look, wipe, done, new_book};
ghost use Rattle.runs.specs.Runs.{NoOrderOfCallsSpoilsABook};
ghost use Rattle.book.specs.Answers.{ask_answer, strike_answer, look_answer};
ghost use Rattle.book.specs.Books.{book_of, LoadsTo, Untouched};

use super::Book;
use crate::kind::Kind;
use crate::open::MOST_STRUCK;
use crate::open::opening::open;
use crate::told::{Refusal, Told};
use closure::row::Row;
use finders::finder::Finder;
use loading::sources::Sources;
use refusals::fault::Fault;
use std::alloc::Global;

impl Book {
    // A new book: nothing is loaded. No order of calls spoils it.
    pub fn new() -> Book
        ensures empty { book_of result ≡ new_book }
        ensures sound { NoOrderOfCallsSpoilsABook }
    {
        Book { open: None }
    }

    // Reads a side and three texts; they replace all that the book had, or are refused and change nothing.
    pub fn load(&mut self, heap: Global, side: u8, sources: Sources<'_>) -> Result<(), Fault>
        ensures { LoadsTo side sources.entry.plan.now sources.entry.faults.now sources.entry.site.now (book_of self.old) result (book_of self.new) }
    {
        let open = open(heap, side, sources)?;
        self.open = Some(open);
        Ok(())
    }

    // Shows the first plan in the finder's order that wins and is not struck, and writes it into the row; or says that there is none, and clears the row.
    pub fn ask<F: Finder<96>>(&mut self, finder: &F, row: &mut Row<96>) -> Result<Told, Refusal>
        ensures goes { Goes (ask (F.meaning finder.now)) (book_of self.old) (ask_answer result row.new.marks) (book_of self.new) }
        ensures row { Untouched result row.old.marks row.new.marks }
    {
        let Some(open) = self.open.take() else {
            return Err(Refusal::NothingLoaded);
        };
        if open.loaded.has_more_heads(F::MOST) {
            self.open = Some(open);
            return Err(Refusal::TooManyHeads);
        }
        let open = open.asked(finder);
        let told = open.told();
        *row = open.row();
        self.open = Some(open);
        Ok(told)
    }

    // Puts the plan shown at the end of the struck ones; none is shown then.
    pub fn strike(&mut self) -> Result<(), Refusal>
        ensures { Goes strike (book_of self.old) (strike_answer result) (book_of self.new) }
    {
        let Some(open) = self.open.take() else {
            return Err(Refusal::NothingLoaded);
        };
        let Some(row) = open.shown else {
            self.open = Some(open);
            return Err(Refusal::NoneShown);
        };
        if open.struck.len() >= MOST_STRUCK {
            self.open = Some(open);
            return Err(Refusal::StruckFull);
        }
        self.open = Some(open.with_struck(row));
        Ok(())
    }

    // Writes a stored entry: kind 1 a plan of the sheet and the reply that beats it, kind 2 a struck plan with the second row cleared.
    pub fn look(
        &self,
        kind: u8,
        place: usize,
        first: &mut Row<96>,
        second: &mut Row<96>,
    ) -> Result<(), Refusal>
        ensures goes { Goes (look kind place) (book_of self.now) (look_answer result first.new.marks second.new.marks) (book_of self.now) }
        ensures first { Untouched result first.old.marks first.new.marks }
        ensures second { Untouched result second.old.marks second.new.marks }
    {
        let Some(open) = &self.open else {
            return Err(Refusal::NothingLoaded);
        };
        let kind = Kind::try_from(kind)?;
        let Some(pair) = open.entry(kind, place) else {
            return Err(Refusal::NoEntry);
        };
        *first = pair.plan;
        *second = pair.reply.row();
        Ok(())
    }

    // Forgets the struck plans, the sheet and the plan shown; keeps the texts.
    pub fn wipe(&mut self)
        ensures { Goes wipe (book_of self.old) done (book_of self.new) }
    {
        if let Some(open) = self.open.take() {
            self.open = Some(open.wiped());
        }
    }
}
