// The solver against the textbook.
use crate::jobs::job::Job;
use crate::jobs::listing::compare_finders;
use crate::jobs::making::ATOMS;
use crate::jobs::tally::Tally;
use crate::line::Line;
use crate::subset::Subset;
use crate::textbook::Textbook;
use closure::row::Row;
use programs::program::Program;
use programs::rule::Rule;
use solving::job::Job as Solved;
use solving::strata::unstratified_rule;
use solving::stratified::Stratified;
use std::alloc::{AllocError, Global};

// There are so many sets of a job's atoms, numbered from 0.
pub(crate) const SETS: u32 = 64;

// At 96 atoms the six atoms of a job are 0, 19, 38, 57, 76 and 95.
pub(crate) const APART: u16 = 19;

// The solver's number of an atom: so far apart are two atoms of a job that follow each other.
fn spread_atom(atom: u16, apart: u16) -> u16 {
    atom.wrapping_mul(apart)
}

// The solver's numbers of the atoms of the line's negated literals, or of its plain ones.
fn spread_list(
    heap: Global,
    line: &Line,
    negated: bool,
    apart: u16,
) -> Result<Vec<u16>, AllocError> {
    line.body
        .iter()
        .filter(|literal| literal.negated == negated)
        .map(|literal| spread_atom(literal.atom, apart))
        .collect(heap)
}

fn spread_rule(heap: Global, line: &Line, apart: u16) -> Result<Rule, AllocError> {
    Ok(Rule {
        head: line.head.map(|atom| spread_atom(atom, apart)),
        plain: spread_list(heap, line, false, apart)?,
        negated: spread_list(heap, line, true, apart)?,
    })
}

// The job's rules for the solver; none where they break a limit.
pub(crate) fn program_of<const N: usize>(
    heap: Global,
    job: &Job,
    apart: u16,
) -> Result<Option<Program<N>>, AllocError> {
    let rules = job
        .lines
        .iter()
        .map(|line| -> Result<Rule, AllocError> { spread_rule(heap, line, apart) })
        .try_collect(heap)?;
    Ok(Program::new(rules))
}

pub(crate) fn row_of<const N: usize>(set: Subset, apart: u16) -> Row<N> {
    let mut row = Row::clear();
    for atom in (0..ATOMS).filter(|atom| set.has(*atom)) {
        row.put(spread_atom(atom, apart));
    }
    row
}

// Has the row the atoms of the set, and no others?
pub(crate) fn row_is(row: &Row<96>, set: Subset) -> bool {
    (0..96u16).all(|atom| row.has(atom) == (atom % APART == 0 && set.has(atom / APART)))
}

// Every set of atoms, at this width: is it an answer set? The row is that of what is given.
fn compare_sets<const N: usize>(
    heap: Global,
    job: &Job,
    given_row: &Row<N>,
    apart: u16,
    tally: &mut Tally,
) -> Result<(), AllocError> {
    let Some(program) = program_of::<N>(heap, job, apart)? else {
        tally.agree(false);
        return Ok(());
    };
    let textbook = Textbook::of(heap, job.lines.as_slice())?;
    let solved = Solved {
        program: &program,
        given: given_row,
    };
    for number in 0..SETS {
        let set = Subset::numbered(number);
        let got = solved.is_answer_set(&row_of(set, apart));
        tally.set(got, textbook.answers(set, job.facts()));
    }
    Ok(())
}

// The only one of the sets that holds no given atom.
fn only_new(sets: &[Subset], given: Subset) -> Option<Subset> {
    let mut new = sets.iter().filter(|set| set.and(given).is_empty());
    match (new.next(), new.next()) {
        (Some(only), None) => Some(*only),
        _ => None,
    }
}

// A stratified program: the one answer set of its headed rules without what is given, and whether it holds.
fn compare_judgement(
    heap: Global,
    textbook: &Textbook,
    facts: Subset,
    stratified: &Stratified<96>,
    tally: &mut Tally,
) -> Result<(), AllocError> {
    let given_row = row_of(facts, APART);
    tally.judgement(stratified.holds(&given_row), textbook.holds(facts));
    let found = textbook.headed(heap)?.all_answers(heap, facts)?;
    match only_new(found.as_slice(), facts) {
        Some(set) => tally.agree(row_is(&stratified.answer(&given_row), set)),
        None => tally.agree(false),
    }
    Ok(())
}

// The first rule that breaks the strata, and the judgement where none does.
fn compare_strata(heap: Global, job: &Job, tally: &mut Tally) -> Result<(), AllocError> {
    let Some(program) = program_of::<96>(heap, job, APART)? else {
        tally.agree(false);
        return Ok(());
    };
    let textbook = Textbook::of(heap, job.lines.as_slice())?;
    let want = textbook.first_break();
    tally.program(unstratified_rule(&program), want);
    match Stratified::new(program) {
        Ok(stratified) => {
            tally.agree(want.is_none());
            compare_judgement(heap, &textbook, job.facts(), &stratified, tally)
        }
        Err(place) => {
            tally.agree(want == Some(place));
            Ok(())
        }
    }
}

// Runs the job through both solvers.
pub(crate) fn compare(heap: Global, job: &Job, tally: &mut Tally) -> Result<(), AllocError> {
    tally.job();
    compare_sets::<6>(heap, job, &row_of(job.facts(), 1), 1, tally)?;
    compare_sets::<96>(heap, job, &row_of(job.facts(), APART), APART, tally)?;
    compare_strata(heap, job, tally)?;
    compare_finders(heap, job, tally)
}
