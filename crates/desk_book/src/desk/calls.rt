// The calls of the book at the desk, each told in lines.
ghost use Rattle.std.specs.Prelude.{◌≡◌, ◌<◌, ◌⊎◌, ℕ, List, ◌++◌, OnOk};
ghost use Rattle.runs.specs.Book.{ask, strike, look, wipe, new_book, nothing_loaded};
ghost use Rattle.desk_book.specs.Desks.{desk_book, desk_bytes};
ghost use Rattle.desk_book.specs.Loaded.{bytes_of, no_bytes};
ghost use Rattle.desk_book.specs.Reasons.{WhyLines};
ghost use Rattle.desk_book.specs.Told.{Answered, LoadAnswered, finder_of, refusal_line};
ghost use Rattle.desk_book.specs.Winners.{AllTold};

use super::Desk;
use crate::asking::add_told;
use crate::names::{named, rule_count};
use crate::reasons::add_sheet;
use crate::winners::strike_winners;
use book::book::Book;
use book::told::Refusal;
use closure::row::Row;
use desk_text::lines::{
    add_fault, add_loaded, add_pair, add_refused, add_struck, add_struck_plan, wiped_line,
};
use finders::branching::Branching;
use finders::counting::Counting;
use finders::finder::Finder;
use listing_text::words::Order;
use loading::sources::Three;
use site_files::files::lent;
use std::alloc::{AllocError, Global};

// The kind as the book takes it; a number that is no byte is no kind, like 0.
fn kind_byte(kind: usize) -> u8
    ensures { (result ≡ kind) ⊎ ((result ≡ 0) × (255 < kind)) }
{
    match u8::try_from(kind) {
        Ok(kind) => kind,
        Err(_) => 0,
    }
}

// Adds the line of the refusal where nothing is loaded.
fn add_unloaded(heap: Global, out: &mut Vec<u8>) -> Result<(), AllocError>
    ensures { OnOk result (out.new.items ≡ out.old.items ++ refusal_line nothing_loaded) }
{
    add_refused(heap, out, Refusal::NothingLoaded.cause())
}

impl Desk {
    // A desk with a new book.
    pub fn new(heap: Global) -> Desk
        ensures empty { desk_book result ≡ new_book }
        ensures bytes { desk_bytes result ≡ no_bytes }
    {
        Desk {
            book: Book::new(),
            texts: Three {
                plan: Vec::new(heap),
                faults: Vec::new(heap),
                site: Vec::new(heap),
            },
        }
    }

    // Loads the texts, which replace those that were loaded, or are refused and change nothing.
    pub fn load(
        &mut self,
        heap: Global,
        side: u8,
        texts: Three<Vec<u8>>,
        out: &mut Vec<u8>,
    ) -> Result<(), AllocError>
        ensures { LoadAnswered side (bytes_of texts) self.old self.new out.old.items out.new.items result }
    {
        match self.book.load(heap, side, lent(&texts)) {
            Ok(()) => {
                self.texts = texts;
                let texts = named(heap, &self.texts)?;
                add_loaded(heap, out, rule_count(&texts), texts.atoms().entries().len())
            }
            Err(fault) => add_fault(heap, out, fault),
        }
    }

    // Asks with the finder of this order.
    pub fn ask(&mut self, heap: Global, order: Order, out: &mut Vec<u8>) -> Result<(), AllocError>
        ensures { Answered (ask (finder_of order)) self.old self.new out.old.items out.new.items result }
    {
        match order {
            Order::Counting => self.ask_by(heap, &Counting, out),
            Order::Branching => self.ask_by(heap, &Branching, out),
        }
    }

    // Asks with this finder.
    fn ask_by<F: Finder<96>>(
        &mut self,
        heap: Global,
        finder: &F,
        out: &mut Vec<u8>,
    ) -> Result<(), AllocError>
        ensures { Answered (ask (F.meaning finder.now)) self.old self.new out.old.items out.new.items result }
    {
        let mut row = Row::clear();
        match self.book.ask(finder, &mut row) {
            Ok(told) => {
                let texts = named(heap, &self.texts)?;
                add_told(heap, out, told, row, texts.atoms().entries())
            }
            Err(refusal) => add_refused(heap, out, refusal.cause()),
        }
    }

    // Strikes the plan shown.
    pub fn strike(&mut self, heap: Global, out: &mut Vec<u8>) -> Result<(), AllocError>
        ensures { Answered strike self.old self.new out.old.items out.new.items result }
    {
        match self.book.strike() {
            Ok(()) => add_struck(heap, out, self.book.struck()),
            Err(refusal) => add_refused(heap, out, refusal.cause()),
        }
    }

    // Forgets the struck plans, the sheet and the plan shown.
    pub fn wipe(&mut self, out: &mut Vec<u8>) -> Result<(), AllocError>
        ensures { Answered wipe self.old self.new out.old.items out.new.items result }
    {
        self.book.wipe();
        out.extend_from_slice(wiped_line())?;
        Ok(())
    }

    // Shows a stored entry: kind 1 a pair of the sheet, kind 2 a struck plan.
    pub fn look(
        &self,
        heap: Global,
        kind: usize,
        place: usize,
        out: &mut Vec<u8>,
    ) -> Result<(), AllocError>
        ensures { Answered (look kind place) self.now self.now out.old.items out.new.items result }
    {
        let mut first = Row::clear();
        let mut second = Row::clear();
        let kind = kind_byte(kind);
        if let Err(refusal) = self.book.look(kind, place, &mut first, &mut second) {
            return add_refused(heap, out, refusal.cause());
        }
        let texts = named(heap, &self.texts)?;
        let atoms = texts.atoms().entries();
        if kind == 1 {
            add_pair(out, atoms, &first, &second)
        } else {
            add_struck_plan(out, atoms, &first)
        }
    }

    // Tells the reasons on the sheet.
    pub fn why(&self, heap: Global, out: &mut Vec<u8>) -> Result<(), AllocError>
        ensures { OnOk result ((lines : List ℕ) × WhyLines (desk_book self.now) (desk_bytes self.now) lines × (out.new.items ≡ out.old.items ++ lines)) }
    {
        if !self.book.is_loaded() {
            return add_unloaded(heap, out);
        }
        let texts = named(heap, &self.texts)?;
        add_sheet(heap, &self.book, out, texts.atoms().entries())
    }

    // Asks and strikes until no plan is left, and tells each winning plan.
    pub fn all(&mut self, heap: Global, out: &mut Vec<u8>) -> Result<(), AllocError>
        ensures told { OnOk result (AllTold (desk_book self.old) (desk_book self.new) (desk_bytes self.old) out.old.items out.new.items) }
        ensures bytes { desk_bytes self.new ≡ desk_bytes self.old }
    {
        if !self.book.is_loaded() {
            return add_unloaded(heap, out);
        }
        let texts = named(heap, &self.texts)?;
        strike_winners(heap, &mut self.book, out, texts.atoms())
    }
}
