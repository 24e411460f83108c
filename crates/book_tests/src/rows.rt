// Rows that the tests hand in.
use closure::row::Row;

pub(crate) const NONE: &[u16] = &[];

// A row that no call here writes.
pub(crate) fn stale() -> Row<96> {
    Row::of(&[90, 91])
}
