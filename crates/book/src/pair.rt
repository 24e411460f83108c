// A plan, and a reply that beats it; the reply is put to each further plan, and so it is kept as a mask.
use closure::mask::Mask;
use closure::row::Row;

#[derive(Clone, Copy)]
pub(crate) struct Pair {
    pub(crate) plan: Row<96>,
    pub(crate) reply: Mask,
}
