// A book with texts loaded.
ghost use Rattle.std.specs.Prelude.{◌≤◌, vec_capacity};
ghost use Rattle.runs.specs.Runs.{Keeps};
ghost use Rattle.book.specs.Models.{book_from};

use crate::loaded::Loaded;
use crate::pair::Pair;
use closure::row::Row;

pub mod keeping;
pub mod opening;
pub mod showing;

// So many plans can be struck.
pub(crate) const MOST_STRUCK: usize = 64;

// So many pairs stand on a full sheet.
pub(crate) const MOST_PAIRS: usize = 256;

// It keeps to what a book keeps to, and has room for 64 struck plans and 256 pairs.
#[derive(Drop)]
pub(crate) struct Open {
    pub(crate) loaded: Loaded,
    pub(crate) struck: Vec<Row<96>>,
    pub(crate) sheet: Vec<Pair>,
    pub(crate) shown: Option<Row<96>>,
    ghost struck_room: { 64 ≤ vec_capacity struck },
    ghost sheet_room: { 256 ≤ vec_capacity sheet },
    ghost kept: { ∥ Keeps (book_from loaded struck sheet shown) ∥₁ },
}
