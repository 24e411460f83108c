// How much a book holds.
ghost use Rattle.std.specs.Prelude.{◌≡◌, length};
ghost use Rattle.std.specs.Option.{is_some};
ghost use Rattle.book.specs.Books.{book_of};

use super::Book;

impl Book {
    // Is something loaded?
    pub fn is_loaded(&self) -> bool
        ensures { result ≡ is_some (book_of self.now).texts }
    {
        self.open.is_some()
    }

    // How many pairs stand on the sheet.
    pub fn pairs(&self) -> usize
        ensures { result ≡ length (book_of self.now).sheet }
    {
        match &self.open {
            Some(open) => open.sheet.len(),
            None => 0,
        }
    }

    // How many plans are struck.
    pub fn struck(&self) -> usize
        ensures { result ≡ length (book_of self.now).struck }
    {
        match &self.open {
            Some(open) => open.struck.len(),
            None => 0,
        }
    }
}
