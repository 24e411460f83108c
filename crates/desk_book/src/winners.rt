// The winning plans of a book, one after another.
ghost use Rattle.std.specs.Prelude.{◌≡◌, OnOk};
ghost use Rattle.reading.specs.Tables.{standings_of};
ghost use Rattle.book.specs.Books.{book_of};
ghost use Rattle.desk_book.specs.Winners.{HasTexts, NextGoes, WinnersTold};

use book::book::Book;
use book::told::Verdict;
use closure::row::Row;
use desk_text::lines::add_winners;
use finders::branching::Branching;
use listing_text::lines::{Ending, add_set};
use reading::table::Atoms;
use std::alloc::{AllocError, Global};

// What comes next.
#[derive(Clone, Copy)]
pub(crate) enum Next {
    // This plan won, and is struck.
    Winner(Row<96>),
    // No plan is left, or one is shown that cannot be struck.
    End(Ending),
}

// Asks with the branching finder, and strikes the plan shown.
fn next_winner(book: &mut Book) -> Next
    requires { HasTexts (book_of book.old) }
    ensures { NextGoes (book_of book.old) result (book_of book.new) }
{
    let mut row = Row::clear();
    let Ok(told) = book.ask(&Branching, &mut row) else {
        unreachable!()
    };
    match told.verdict {
        Verdict::NoPlan => Next::End(Ending::Complete),
        Verdict::PlanShown => match book.strike() {
            Ok(()) => Next::Winner(row),
            Err(_) => Next::End(Ending::Stopped),
        },
    }
}

// Strikes the winning plans one after another; adds a line for each, and then how many they are.
pub(crate) fn strike_winners(
    heap: Global,
    book: &mut Book,
    out: &mut Vec<u8>,
    atoms: &Atoms<'_>,
) -> Result<(), AllocError>
    requires { HasTexts (book_of book.old) }
    ensures told { OnOk result (WinnersTold (standings_of atoms.now) (book_of book.old) (book_of book.new) out.old.items out.new.items) }
    ensures texts { (book_of book.new).texts ≡ (book_of book.old).texts }
{
    let mut plans = 0;
    loop {
        match next_winner(book) {
            Next::Winner(plan) => {
                plans += 1;
                add_set(out, atoms, &plan)?;
            }
            Next::End(ending) => return add_winners(heap, out, plans, ending),
        }
    }
}
