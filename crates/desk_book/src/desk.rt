// A book with the texts that are loaded in it.
ghost use Rattle.book.specs.Books.{book_of};
ghost use Rattle.desk_book.specs.Loaded.{bytes_of, LoadedFrom};

use book::book::Book;
use loading::sources::Three;

pub mod calls;

// What the book has was loaded from these texts.
#[derive(Drop)]
pub struct Desk {
    book: Book,
    texts: Three<Vec<u8>>,
    ghost kept: { ∥ LoadedFrom (book_of book) (bytes_of texts) ∥₁ },
}
