// Layers of atoms, by which rules are made that are stratified.

// Where there are layers, a rule's plain atoms are in no higher layer than its head, and its negated atoms in lower ones; plain
// atoms may go round in a loop.
#[derive(Drop)]
pub(crate) struct Layers {
    // None where any atom may stand in any rule.
    pub(crate) of: Option<Vec<u16>>,
}

impl Layers {
    // May an atom stand in the body of a rule for a head so many layers above it?
    pub(crate) fn allow(&self, atom: u16, head: Option<u16>, above: u16) -> bool {
        match (head, &self.of) {
            (Some(head), Some(of)) => layer(of.as_slice(), atom).saturating_add(above)
                <= layer(of.as_slice(), head),
            _ => true,
        }
    }
}

fn layer(of: &[u16], atom: u16) -> u16 {
    of.get(usize::from(atom)).copied().unwrap_or(0)
}
