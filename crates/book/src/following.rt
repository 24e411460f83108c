// The entries of a finder one after another, for a job that it takes.
ghost use Rattle.programs.specs.Programs.{rules_of};
ghost use Rattle.finders.specs.Going.{GoesOn};
ghost use Rattle.finders.specs.Meanings.{Listed, Taken};
ghost use Rattle.book.specs.Models.{on_from};

use closure::row::Row;
use finders::finder::{Finder, Found};
use solving::job::Job;

// The first entry, or the one after an earlier entry.
pub(crate) fn following<F: Finder<96>>(
    finder: &F,
    job: Job<'_, 96>,
    earlier: Option<Row<96>>,
) -> Option<Row<96>>
    requires { (Taken 96 (F.meaning finder.now).most (rules_of job.program.now) job.given.now.marks) × (Listed ((F.meaning finder.now).order (rules_of job.program.now) job.given.now.marks) (on_from earlier)) }
    ensures { GoesOn ((F.meaning finder.now).order (rules_of job.entry.program.now) job.entry.given.now.marks) (on_from earlier) result }
{
    let mut row = Row::clear();
    let Ok(found) = finder.next(job.program, job.given, earlier.as_ref(), &mut row) else {
        unreachable()
    };
    match found {
        Found::Entry => Some(row),
        Found::End => None,
    }
}
