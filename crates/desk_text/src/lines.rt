// The lines that the desk prints.
ghost use Rattle.std.specs.Prelude.{◌≡◌, ◌++◌, OnOk, codes};
ghost use Rattle.refusals.specs.Line.{line};
ghost use Rattle.reading.specs.Tables.{standings};
ghost use Rattle.desk_text.specs.Lines.{loaded_line, refused_line, sizes_line, struck_line, wiped_line, spaced, pair_lines, struck_plan_line, set_in_words, reason_line, reasons_line, winners_line, no_command_line, unread_line, help_lines};

use closure::row::Row;
use listing_text::lines::{Ending, add_atoms};
use reading::table::Atom;
use refusals::fault::Fault;
use std::alloc::{AllocError, Global};

// So many pairs stand on a full sheet.
const MOST_PAIRS: usize = 256;

// Adds the line that tells how much was loaded.
pub fn add_loaded(
    heap: Global,
    out: &mut Vec<u8>,
    rules: usize,
    atoms: usize,
) -> Result<(), AllocError>
    ensures { OnOk result (out.new.items ≡ out.old.items ++ loaded_line rules atoms) }
{
    let line = format!(in heap; "% loaded {rules} rules, {atoms} atoms\n")?;
    out.extend_from_slice(line.as_bytes())?;
    Ok(())
}

// Adds the line of a refusal that concerns no text.
pub fn add_refused(heap: Global, out: &mut Vec<u8>, cause: u8) -> Result<(), AllocError>
    ensures { OnOk result (out.new.items ≡ out.old.items ++ refused_line cause) }
{
    let line = format!(in heap; "% refused {cause} text 0 byte 0\n")?;
    out.extend_from_slice(line.as_bytes())?;
    Ok(())
}

// Adds the line of a refusal that concerns a text.
pub fn add_fault(heap: Global, out: &mut Vec<u8>, fault: Fault) -> Result<(), AllocError>
    ensures { OnOk result (out.new.items ≡ out.old.items ++ line fault) }
{
    let line = format!(in heap; "{fault}\n")?;
    out.extend_from_slice(line.as_bytes())?;
    Ok(())
}

// Adds the line with the numbers of pairs and of struck plans.
pub fn add_sizes(
    heap: Global,
    out: &mut Vec<u8>,
    pairs: usize,
    struck: usize,
) -> Result<(), AllocError>
    ensures { OnOk result (out.new.items ≡ out.old.items ++ sizes_line pairs struck) }
{
    let line = format!(in heap; "% pairs {pairs} struck {struck}\n")?;
    out.extend_from_slice(line.as_bytes())?;
    Ok(())
}

// Adds the line with the number of struck plans.
pub fn add_struck(heap: Global, out: &mut Vec<u8>, struck: usize) -> Result<(), AllocError>
    ensures { OnOk result (out.new.items ≡ out.old.items ++ struck_line struck) }
{
    let line = format!(in heap; "% struck {struck}\n")?;
    out.extend_from_slice(line.as_bytes())?;
    Ok(())
}

// The line that tells that all was wiped.
pub fn wiped_line() -> &'static [u8]
    ensures { result.now ≡ wiped_line }
{
    b"% wiped\n"
}

// Adds a word, the set's atoms by name, and a line feed.
fn add_named(
    out: &mut Vec<u8>,
    word: &[u8],
    atoms: &[Atom<'_>],
    set: &Row<96>,
) -> Result<(), AllocError>
    ensures { OnOk result (out.new.items ≡ out.old.items ++ (word.now ++ (spaced (standings atoms.now) set.now.marks ++ codes "\n"))) }
{
    out.extend_from_slice(word)?;
    add_atoms(out, b" ", atoms, set)?;
    out.extend_from_slice(b"\n")?;
    Ok(())
}

// Adds the two lines of a pair of the sheet.
pub fn add_pair(
    out: &mut Vec<u8>,
    atoms: &[Atom<'_>],
    plan: &Row<96>,
    reply: &Row<96>,
) -> Result<(), AllocError>
    ensures { OnOk result (out.new.items ≡ out.old.items ++ pair_lines (standings atoms.now) plan.now.marks reply.now.marks) }
{
    add_named(out, b"% plan", atoms, plan)?;
    add_named(out, b"% reply", atoms, reply)
}

// Adds the line of a struck plan.
pub fn add_struck_plan(
    out: &mut Vec<u8>,
    atoms: &[Atom<'_>],
    plan: &Row<96>,
) -> Result<(), AllocError>
    ensures { OnOk result (out.new.items ≡ out.old.items ++ struck_plan_line (standings atoms.now) plan.now.marks) }
{
    add_named(out, b"% struck", atoms, plan)
}

// Adds the set's atoms by name, or a word for the empty set.
fn add_in_words(out: &mut Vec<u8>, atoms: &[Atom<'_>], set: &Row<96>) -> Result<(), AllocError>
    ensures { OnOk result (out.new.items ≡ out.old.items ++ set_in_words (standings atoms.now) set.now.marks) }
{
    let before = out.len();
    add_atoms(out, b"", atoms, set)?;
    if out.len() == before {
        out.extend_from_slice(b"nothing")?;
    }
    Ok(())
}

// Adds the line that tells that the reply beats the plan.
pub fn add_reason(
    out: &mut Vec<u8>,
    atoms: &[Atom<'_>],
    plan: &Row<96>,
    reply: &Row<96>,
) -> Result<(), AllocError>
    ensures { OnOk result (out.new.items ≡ out.old.items ++ reason_line (standings atoms.now) plan.now.marks reply.now.marks) }
{
    out.extend_from_slice(b"% ")?;
    add_in_words(out, atoms, plan)?;
    out.extend_from_slice(b" is beaten by ")?;
    add_in_words(out, atoms, reply)?;
    out.extend_from_slice(b"\n")?;
    Ok(())
}

// Adds the line with the number of reasons, and whether the sheet is full.
pub fn add_reasons(heap: Global, out: &mut Vec<u8>, pairs: usize) -> Result<(), AllocError>
    ensures { OnOk result (out.new.items ≡ out.old.items ++ reasons_line pairs) }
{
    let line = if pairs < MOST_PAIRS {
        format!(in heap; "% {pairs} pairs\n")?
    } else {
        format!(in heap; "% {pairs} pairs, the sheet is full: it may not hold every reason\n")?
    };
    out.extend_from_slice(line.as_bytes())?;
    Ok(())
}

// Adds the line with the number of winning plans, and whether one more was shown that was not struck.
pub fn add_winners(
    heap: Global,
    out: &mut Vec<u8>,
    plans: usize,
    ending: Ending,
) -> Result<(), AllocError>
    ensures { OnOk result (out.new.items ≡ out.old.items ++ winners_line plans ending) }
{
    let line = match ending {
        Ending::Complete => format!(in heap; "% {plans} winning plans\n")?,
        Ending::Stopped => format!(in heap; "% {plans} winning plans, and more\n")?,
    };
    out.extend_from_slice(line.as_bytes())?;
    Ok(())
}

// The line that tells that a line is no command.
pub fn no_command_line() -> &'static [u8]
    ensures { result.now ≡ no_command_line }
{
    b"% no such command: help lists them\n"
}

// The line that tells that some file could not be read.
pub fn unread_line() -> &'static [u8]
    ensures { result.now ≡ unread_line }
{
    b"% the files cannot be read\n"
}

// The lines that list the commands.
pub fn help_lines() -> &'static [u8]
    ensures { result.now ≡ help_lines }
{
    b"% load SIDE FOLDER: read plan.lp, faults.lp and site.lp; the side is 1 or 2\n\
% ask, ask branching, ask counting: show the first winning plan that is not struck\n\
% strike: strike the plan shown\n\
% wipe: forget the struck plans, the reasons and the plan shown\n\
% look KIND PLACE: kind 1 a beaten plan and its reply, kind 2 a struck plan; from place 0\n\
% why: the beaten plans, each with a reply that beats it\n\
% all: ask and strike until no plan is left\n\
% help: these lines\n"
}
