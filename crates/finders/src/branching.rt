// The finder that branches: it settles the heads one after another, absent before present, lowest number first.
ghost use Rattle.std.specs.Prelude.{◌≡◌, refl, ℕ, ◌<◌, true, MatchOption, MatchResult, ◌≢◌};
ghost use Rattle.closure.specs.Bits.{bit_row};
ghost use Rattle.closure.specs.Rows.{minus};
ghost use Rattle.game.specs.AnswerSets.{AnswerSet};
ghost use Rattle.game.specs.Rules.{is_head};
ghost use Rattle.game.specs.Sets.{Row as Marks, In, Within};
ghost use Rattle.programs.specs.Programs.{rules_of};
ghost use Rattle.finders.specs.Between.{Between, First, Follows, Turned};
ghost use Rattle.finders.specs.Asked.{from};
ghost use Rattle.finders.specs.Going.{GoesOn, NotListed};
ghost use Rattle.finders.specs.Found.{AsRow};
ghost use Rattle.finders.specs.Orders.{branching_order};
ghost use Rattle.finders.specs.Supplied.{branching};

use crate::bounding::Bounds;
use crate::finder::{Finder, Found, Refusal};
use crate::taken::heads_taken;
use crate::writing::written;
use closure::mask::Mask;
use closure::row::Row;
use masked::job::MaskJob;
use programs::program::Program;
use solving::job::Job;

// The set without the given atoms, where that is an answer set.
fn only(job: MaskJob<'_>, all: Mask) -> Option<Mask>
    ensures { MatchOption result (AnswerSet (rules_of job.entry.program.now) (bit_row job.entry.given.bits) (minus (bit_row all.bits) (bit_row job.entry.given.bits)) → ⊥) (λ x. (bit_row x.bits ≡ minus (bit_row all.bits) (bit_row job.entry.given.bits)) × AnswerSet (rules_of job.entry.program.now) (bit_row job.entry.given.bits) (bit_row x.bits)) }
{
    let set = all.minus(job.given);
    if job.is_answer_set(set) {
        Some(set)
    } else {
        None
    }
}

impl<'a> Bounds<'a> {
    // The first answer set between the bounds, in lexical order.
    fn search(&self) -> Option<Mask>
        ensures { MatchOption result ((i : Marks) → Between (rules_of self.now.job.program.now) (bit_row self.now.job.given.bits) (bit_row self.now.low.bits) (bit_row self.now.high.bits) i → ⊥) (λ x. First (Between (rules_of self.now.job.program.now) (bit_row self.now.job.given.bits) (bit_row self.now.low.bits) (bit_row self.now.high.bits)) (bit_row x.bits)) }
    {
        let closer = self.narrowed()?;
        let Some(atom) = closer.high.minus(closer.low).lowest() else {
            return only(self.job, closer.low);
        };
        let one = Mask::clear().with(atom);
        let absent = Bounds {
            job: self.job,
            low: closer.low,
            high: closer.high.minus(one),
        };
        let present = Bounds {
            job: self.job,
            low: closer.low.union(one),
            high: closer.high,
        };
        if let Some(set) = absent.search() {
            return Some(set);
        }
        present.search()
    }
}

// A job that is taken, as masks: none of its heads is given.
#[derive(Clone, Copy)]
struct Branched<'a> {
    job: MaskJob<'a>,
    ghost apart: { (a : ℕ) → In a (bit_row job.given.bits) → is_head (rules_of job.program.now) a ≢ true },
}

// The set that was found, as a row.
fn as_row(found: Option<Mask>) -> Option<Row<96>>
    ensures { AsRow found result }
{
    match found {
        Some(set) => Some(set.row()),
        None => None,
    }
}

impl<'a> Branched<'a> {
    // The bounds of the sets that agree with the entry below the atom, and have it.
    fn turned(&self, entry: Mask, atom: u16) -> Bounds<'a>
        requires { atom < 96 }
        ensures { (result.job ≡ self.now.job) × Turned (bit_row self.now.job.given.bits) (bit_row self.now.job.program.now.masks.heads.bits) (bit_row entry.bits) atom (bit_row result.low.bits) (bit_row result.high.bits) }
    {
        let below = Mask::below(atom);
        let kept = entry.minus(entry.minus(below));
        let low = kept.union(self.job.given).with(atom);
        let high = low.union(self.job.program.masks().heads().minus(below));
        Bounds {
            job: self.job,
            low,
            high,
        }
    }

    // The first answer set after the entry: nothing is cut on the way down to the entry, and the deepest turn is tried first.
    fn after(&self, entry: Mask) -> Option<Mask>
        requires { AnswerSet (rules_of self.now.job.program.now) (bit_row self.now.job.given.bits) (bit_row entry.bits) }
        ensures { MatchOption result ((z : Marks) → Follows (rules_of self.now.job.program.now) (bit_row self.now.job.given.bits) (bit_row entry.bits) z → ⊥) (λ x. First (Follows (rules_of self.now.job.program.now) (bit_row self.now.job.given.bits) (bit_row entry.bits)) (bit_row x.bits)) }
    {
        let open = self.job.program.masks().heads().minus(entry);
        for atom in (0..96).rev() {
            if open.has(atom) {
                if let Some(set) = self.turned(entry, atom).search() {
                    return Some(set);
                }
            }
        }
        None
    }

    // The first answer set, or the first after an earlier entry, which must be one itself.
    fn next_branched(&self, earlier: Option<&Row<96>>) -> Result<Option<Row<96>>, Refusal>
        ensures { MatchResult result (GoesOn (branching_order (rules_of self.now.job.program.now) (bit_row self.now.job.given.bits)) (from earlier.entry)) (NotListed (branching_order (rules_of self.now.job.program.now) (bit_row self.now.job.given.bits)) (from earlier.entry)) }
    {
        let Some(row) = earlier else {
            let whole = Bounds {
                job: self.job,
                low: self.job.given,
                high: self.job.given.union(self.job.program.masks().heads()),
            };
            return Ok(as_row(whole.search()));
        };
        let entry = Mask::of(row);
        if !self.job.is_answer_set(entry) {
            return Err(Refusal::Unlisted);
        }
        Ok(as_row(self.after(entry)))
    }
}

// As many atoms as a row has.
const AT_MOST: usize = 96;

#[derive(Clone, Copy)]
pub struct Branching;

impl Finder<96> for Branching {
    const MOST: usize = AT_MOST;

    ghost MOST = { 96 };

    ghost meaning = { λ _. branching 96 };

    fn next<'j>(
        &self,
        program: &'j Program<96>,
        given: &'j Row<96>,
        earlier: Option<&Row<96>>,
        row: &mut Row<96>,
    ) -> Result<Found, Refusal> {
        let job = Job { program, given };
        heads_taken(job, AT_MOST)?;
        let branched = Branched {
            job: MaskJob {
                program,
                given: Mask::of(given),
            },
        };
        let found = branched.next_branched(earlier)?;
        Ok(written(found, row))
    }

    ghost most_is = { λ _. refl };
}
