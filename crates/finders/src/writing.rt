// What a finder writes and tells of the set that it found.
ghost use Rattle.finders.specs.Going.{Written};

use crate::finder::Found;
use closure::row::Row;

// Writes the set into the row; without one, clears it.
pub(crate) fn written<const N: usize>(found: Option<Row<N>>, row: &mut Row<N>) -> Found
    ensures { Written found.entry result row.new.marks }
{
    match found {
        Some(set) => {
            *row = set;
            Found::Entry
        }
        None => {
            *row = Row::clear();
            Found::End
        }
    }
}
