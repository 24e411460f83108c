// The lines that tell a listing.
ghost use Rattle.std.specs.Prelude.{◌≡◌, ◌++◌, IfOk, string_bytes, codes, OnOk};
ghost use Rattle.reading.specs.Tables.{standings, standings_of};
ghost use Rattle.listing_text.specs.Lines.{names_from, dotted, set_line, count_line, refused_line};

use closure::row::Row;
use finders::finder::Refusal;
use reading::table::{Atom, Atoms};
use std::alloc::{AllocError, Global};

// How a listing ended.
#[derive(Clone, Copy, PartialEq, Eq, Debug)]
pub enum Ending {
    // No set was left.
    Complete,
    // As many sets as were wanted had been told.
    Stopped,
}

// Adds the lead, the name and a dot.
fn add_atom(out: &mut Vec<u8>, lead: &[u8], name: &[u8]) -> Result<(), AllocError>
    ensures { OnOk result (out.new.items ≡ out.old.items ++ (lead.now ++ (name.now ++ codes "."))) }
{
    out.extend_from_slice(lead)?;
    out.extend_from_slice(name)?;
    out.extend_from_slice(b".")?;
    Ok(())
}

// Adds the names of the set's atoms, each with a dot; `first` stands before the first, and a space before each further one.
pub fn add_atoms(
    out: &mut Vec<u8>,
    first: &[u8],
    entries: &[Atom<'_>],
    set: &Row<96>,
) -> Result<(), AllocError>
    ensures { OnOk result (out.new.items ≡ out.old.items ++ dotted first.now (names_from 0 (standings entries.now) set.now.marks)) }
{
    let mut lead = first;
    for (i, atom) in entries.iter().enumerate() {
        if set.at(i) {
            add_atom(out, lead, atom.name)?;
            lead = b" ";
        }
    }
    Ok(())
}

// Adds the line of a set: its atoms by name in number order.
pub fn add_set(out: &mut Vec<u8>, atoms: &Atoms<'_>, set: &Row<96>) -> Result<(), AllocError>
    ensures { OnOk result (out.new.items ≡ out.old.items ++ set_line (standings_of atoms.now) set.now.marks) }
{
    add_atoms(out, b"", atoms.entries(), set)?;
    out.extend_from_slice(b"\n")?;
    Ok(())
}

// The last line: how many sets were told, and whether all.
pub fn count_line(heap: Global, count: u64, ending: Ending) -> Result<String, AllocError>
    ensures { IfOk result (λ s. string_bytes s ≡ count_line count ending) }
{
    match ending {
        Ending::Complete => format!(in heap; "% {count} answer sets\n"),
        Ending::Stopped => format!(in heap; "% {count} answer sets, stopped\n"),
    }
}

// The line that tells that a finder does not take the text.
pub fn refused_line(heap: Global, refusal: Refusal) -> Result<String, AllocError>
    ensures { IfOk result (λ s. string_bytes s ≡ refused_line refusal) }
{
    let cause = refusal.cause();
    format!(in heap; "% refused {cause} text 1 byte 0\n")
}
