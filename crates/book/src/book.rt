// The book: texts loaded or none, and what is kept on them.
use crate::open::Open;

pub mod calls;
pub mod sizes;

#[derive(Drop)]
pub struct Book {
    open: Option<Open>,
}
