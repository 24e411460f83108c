// The finder that counts: the sets of heads as binary numbers that ascend, of which the answer sets are kept.
ghost use Rattle.std.specs.Prelude.{refl};
ghost use Rattle.std.specs.Option.{MatchOption};
ghost use Rattle.std.specs.Result.{MatchResult};
ghost use Rattle.finders.specs.Asked.{from};
ghost use Rattle.finders.specs.Going.{GoesOn, NotListed};
ghost use Rattle.finders.specs.Orders.{counting_order};
ghost use Rattle.finders.specs.Supplied.{counting};
ghost use Rattle.finders.specs.Upward.{SetOf, Next, Last, First, NoneFrom};
ghost use Rattle.programs.specs.Programs.{rules_of};

use crate::finder::{Finder, Found, Refusal};
use crate::taken::{Taken, heads_taken};
use crate::writing::written;
use closure::row::Row;
use programs::program::Program;
use solving::job::Job;

// The next set of heads, as a binary number: the lowest head that is free goes in, and what is below it goes out.
fn raised<const N: usize>(heads: &Row<N>, set: &Row<N>) -> Option<Row<N>>
    requires { SetOf heads.now.marks set.now.marks }
    ensures { MatchOption result (Last heads.now.marks set.now.marks) (λ y. Next heads.now.marks set.now.marks y.marks) }
{
    let free = heads.minus(set);
    let mut row = *set;
    for place in 0..N {
        if free.at(place) {
            return Some(row.with(place));
        }
        row = row.without(place);
    }
    None
}

impl<'a, const N: usize> Taken<'a, N> {
    // The first answer set from a set of heads on.
    fn first_from(&self, start: Row<N>) -> Option<Row<N>>
        requires { SetOf self.now.heads.now.marks start.marks }
        ensures { MatchOption result (NoneFrom (rules_of self.now.job.program.now) self.now.job.given.now.marks start.entry.marks) (λ y. First (rules_of self.now.job.program.now) self.now.job.given.now.marks start.entry.marks y.marks) }
    {
        let mut set = start;
        while !self.job.is_answer_set(&set) {
            set = raised(self.heads, &set)?;
        }
        Some(set)
    }

    // The first answer set, or the first after an earlier entry, which must be one itself.
    fn next_counted(&self, earlier: Option<&Row<N>>) -> Result<Option<Row<N>>, Refusal>
        ensures { MatchResult result (GoesOn (counting_order (rules_of self.now.job.program.now) self.now.job.given.now.marks) (from earlier.entry)) (NotListed (counting_order (rules_of self.now.job.program.now) self.now.job.given.now.marks) (from earlier.entry)) }
    {
        let Some(entry) = earlier else {
            return Ok(self.first_from(Row::clear()));
        };
        if !self.job.is_answer_set(entry) {
            return Err(Refusal::Unlisted);
        }
        match raised(self.heads, entry) {
            Some(start) => Ok(self.first_from(start)),
            None => Ok(None),
        }
    }
}

// More heads are refused: their sets are too many to go through.
const AT_MOST: usize = 24;

#[derive(Clone, Copy)]
pub struct Counting;

impl<const N: usize> Finder<N> for Counting {
    const MOST: usize = AT_MOST;

    ghost MOST = { 24 };

    ghost meaning = { λ _. counting N };

    fn next<'j>(
        &self,
        program: &'j Program<N>,
        given: &'j Row<N>,
        earlier: Option<&Row<N>>,
        row: &mut Row<N>,
    ) -> Result<Found, Refusal> {
        let job = Job { program, given };
        let heads = heads_taken(job, AT_MOST)?;
        let taken = Taken { job, heads: &heads };
        let found = taken.next_counted(earlier)?;
        Ok(written(found, row))
    }

    ghost most_is = { λ _. refl };
}
