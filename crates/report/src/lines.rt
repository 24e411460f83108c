// The lines of the report.
ghost use Rattle.std.specs.Prelude.{◌≡◌, ◌++◌, MatchResult};
ghost use Rattle.refusals.specs.declared.fault.Fault.TheVariants.{NoMemory};
ghost use Rattle.reading.specs.Tables.{standings};
ghost use Rattle.report.specs.Reported.{atom_lines, coherence_line, report_bytes};

use closure::row::Row;
use reading::table::Atom;
use refusals::fault::Fault;
use std::alloc::Global;

fn coherence_line(coherent: bool) -> &'static [u8]
    ensures { result.now ≡ coherence_line coherent }
{
    if coherent {
        b"% coherent\n"
    } else {
        b"% incoherent\n"
    }
}

// Puts a line for each marked atom at the end of `lines`.
fn put_atoms(lines: &mut Vec<u8>, atoms: &[Atom<'_>], row: &Row<96>) -> Result<(), Fault>
    ensures { MatchResult result (λ _. lines.new.items ≡ lines.old.items ++ atom_lines (standings atoms.now) row.now.marks) (λ e. e ≡ NoMemory) }
{
    for (i, atom) in atoms.iter().enumerate() {
        if row.at(i) {
            lines.extend_from_slice(atom.name)?;
            lines.extend_from_slice(b".\n")?;
        }
    }
    Ok(())
}

// The whole report, over the table of atoms.
pub fn report_lines(
    heap: Global,
    coherent: bool,
    shown: Option<Row<96>>,
    atoms: &[Atom<'_>],
) -> Result<Vec<u8>, Fault>
    ensures { MatchResult result (λ v. v.items ≡ report_bytes coherent shown (standings atoms.now)) (λ e. e ≡ NoMemory) }
{
    let mut lines = Vec::new(heap);
    lines.extend_from_slice(coherence_line(coherent))?;
    match shown {
        Some(row) => {
            lines.extend_from_slice(b"% plan\n")?;
            put_atoms(&mut lines, atoms, &row)?;
        }
        None => lines.extend_from_slice(b"% no plan\n")?,
    }
    Ok(lines)
}
