// Both finders against the textbook: the same sets, each in its own order, resumed after every entry; and their refusals.
use crate::jobs::comparing::{APART, SETS, program_of, row_is, row_of};
use crate::jobs::job::Job;
use crate::jobs::making::ATOMS;
use crate::jobs::tally::Tally;
use crate::subset::Subset;
use crate::textbook::Textbook;
use closure::row::Row;
use finders::branching::Branching;
use finders::counting::Counting;
use finders::finder::{Finder, Found, Refusal};
use programs::program::Program;
use std::alloc::{AllocError, Global};

// The set at this place where the lowest atom is the highest digit.
fn turned_round(number: u32) -> Subset {
    let digits = Subset::numbered(number);
    Subset::union(
        (0..ATOMS).filter(|atom| digits.has(*atom)).map(|atom| Subset::one(
            ATOMS.wrapping_sub(1).wrapping_sub(atom),
        )),
    )
}

// A row that is no set of a job.
fn stale() -> Row<96> {
    let mut row = Row::clear();
    row.put(1);
    row
}

// Does the finder go on from there to the wanted set, or to the end where none is wanted?
fn goes_on<F: Finder<96>>(
    finder: &F,
    program: &Program<96>,
    given: &Row<96>,
    earlier: Option<Row<96>>,
    want: Option<Subset>,
) -> bool {
    let mut row = stale();
    match (
        finder.next(program, given, earlier.as_ref(), &mut row),
        want,
    ) {
        (Ok(Found::Entry), Some(set)) => row_is(&row, set),
        (Ok(Found::End), None) => row.count() == 0,
        _ => false,
    }
}

// Is this asked for in vain, with this refusal and the row untouched?
fn is_refused<F: Finder<96>>(
    finder: &F,
    program: &Program<96>,
    given: &Row<96>,
    earlier: Option<Row<96>>,
    want: Refusal,
) -> bool {
    let mut row = stale();
    match finder.next(program, given, earlier.as_ref(), &mut row) {
        Ok(_) => false,
        Err(refusal) => refusal == want && row == stale(),
    }
}

// Every set in the finder's order, which tells the set at each place: an entry comes next, and no other set is one to go on from.
fn compare_listing<F: Finder<96>, P: Fn(u32) -> Subset>(
    finder: &F,
    placed: P,
    program: &Program<96>,
    textbook: &Textbook,
    facts: Subset,
    tally: &mut Tally,
)
    requires { P.IsAlwaysCallable placed }
{
    let given_row = row_of(facts, APART);
    let mut earlier = None;
    for number in 0..SETS {
        let set = placed(number);
        let row = row_of(set, APART);
        if textbook.answers(set, facts) {
            tally.entry(goes_on(finder, program, &given_row, earlier, Some(set)));
            earlier = Some(row);
        } else {
            tally.agree(is_refused(finder, program, &given_row, Some(row), Refusal::Unlisted));
        }
    }
    tally.listing(goes_on(finder, program, &given_row, earlier, None));
}

// Is a given atom the head of a rule?
fn given_is_head(job: &Job) -> bool {
    let given = job.facts();
    job.lines
        .iter()
        .any(|line| line.head.is_some_and(|head| given.has(head)))
}

// Runs the job through both finders.
pub(crate) fn compare_finders(
    heap: Global,
    job: &Job,
    tally: &mut Tally,
) -> Result<(), AllocError> {
    let Some(program) = program_of::<96>(heap, job, APART)? else {
        tally.agree(false);
        return Ok(());
    };
    let textbook = Textbook::of(heap, job.lines.as_slice())?;
    let facts = job.facts();
    if given_is_head(job) {
        let row = row_of(facts, APART);
        tally.refused(is_refused(&Counting, &program, &row, Some(row), Refusal::GivenHead));
        tally.refused(is_refused(&Branching, &program, &row, Some(row), Refusal::GivenHead));
        return Ok(());
    }
    compare_listing(
        &Counting,
        Subset::numbered,
        &program,
        &textbook,
        facts,
        tally,
    );
    compare_listing(&Branching, turned_round, &program, &textbook, facts, tally);
    Ok(())
}
