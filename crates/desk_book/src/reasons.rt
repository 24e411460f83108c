// The reasons on a sheet, in lines.
ghost use Rattle.std.specs.Prelude.{◌≡◌, ◌<◌, ◌++◌, length, OnOk};
ghost use Rattle.reading.specs.Tables.{standings};
ghost use Rattle.book.specs.Books.{book_of};
ghost use Rattle.desk_book.specs.Reasons.{AddsReason, reason_lines};
ghost use Rattle.desk_text.specs.Lines.{reasons_line};

use book::book::Book;
use closure::row::Row;
use desk_text::lines::{add_reason, add_reasons};
use reading::table::Atom;
use std::alloc::{AllocError, Global};

// Adds the line of the pair at this place.
fn add_reason_at(
    book: &Book,
    out: &mut Vec<u8>,
    atoms: &[Atom<'_>],
    place: usize,
) -> Result<(), AllocError>
    requires { place < length (book_of book.now).sheet }
    ensures { OnOk result (AddsReason (standings atoms.now) (book_of book.now).sheet place out.old.items out.new.items) }
{
    let mut plan = Row::clear();
    let mut reply = Row::clear();
    let Ok(()) = book.look(1, place, &mut plan, &mut reply) else {
        unreachable!()
    };
    add_reason(out, atoms, &plan, &reply)
}

// Adds a line for each pair in order, and then how many there are.
pub(crate) fn add_sheet(
    heap: Global,
    book: &Book,
    out: &mut Vec<u8>,
    atoms: &[Atom<'_>],
) -> Result<(), AllocError>
    ensures { OnOk result (out.new.items ≡ out.old.items ++ (reason_lines (standings atoms.now) (book_of book.now).sheet ++ reasons_line (length (book_of book.now).sheet))) }
{
    let pairs = book.pairs();
    for place in 0..pairs {
        add_reason_at(book, out, atoms, place)?;
    }
    add_reasons(heap, out, pairs)
}
