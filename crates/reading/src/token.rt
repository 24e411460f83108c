// A token, and a token with its place.
#[derive(Clone, Copy)]
pub enum Token<'a> {
    // The name is a part of the text.
    Name(&'a [u8]),
    Not,
    Arrow,
    Comma,
    Dot,
}

#[derive(Clone, Copy)]
pub struct Spot<'a> {
    pub token: Token<'a>,
    pub at: usize,
}
