// A job that a finder takes.
ghost use Rattle.std.specs.Prelude.{◌≡◌, ℕ, true, ◌≢◌};
ghost use Rattle.std.specs.Result.{MatchResult};
ghost use Rattle.finders.specs.Jobs.{HeadsTaken, Refused};
ghost use Rattle.finders.specs.Upward.{HeadsAre};
ghost use Rattle.game.specs.Rules.{is_head};
ghost use Rattle.game.specs.Sets.{In};
ghost use Rattle.programs.specs.Programs.{rules_of};

use crate::finder::Refusal;
use closure::row::Row;
use solving::bounds::heads;
use solving::job::Job;

// A job with its heads, none of which is given.
#[derive(Clone, Copy)]
pub(crate) struct Taken<'a, const N: usize> {
    pub(crate) job: Job<'a, N>,
    pub(crate) heads: &'a Row<N>,
    ghost are: { HeadsAre N (rules_of job.program.now) heads.now.marks },
    ghost apart: { (a : ℕ) → In a job.given.now.marks → is_head (rules_of job.program.now) a ≢ true },
}

// The heads, where they are at most `most` and no given atom is one: the questions that every finder puts to a job.
pub(crate) fn heads_taken<const N: usize>(job: Job<'_, N>, most: usize) -> Result<Row<N>, Refusal>
    ensures { MatchResult result (λ hs. HeadsTaken N most (rules_of job.entry.program.now) job.entry.given.now.marks hs.marks) (Refused N most (rules_of job.entry.program.now) job.entry.given.now.marks) }
{
    let heads = heads(job.program);
    if heads.count() > most {
        return Err(Refusal::ManyHeads);
    }
    if job.given.minus(&heads) != *job.given {
        return Err(Refusal::GivenHead);
    }
    Ok(heads)
}
