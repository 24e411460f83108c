// What was compared, and how often the two solvers differ.
use std::fmt;

#[derive(Clone, Copy, Default)]
pub(crate) struct Tally {
    jobs: u64,
    sets: u64,
    answer_sets: u64,
    programs: u64,
    stratified: u64,
    judgements: u64,
    holding: u64,
    listings: u64,
    entries: u64,
    refusals: u64,
    pub(crate) differences: u64,
}

// One more, where it is so.
fn count(counter: &mut u64, so: bool) {
    *counter = counter.saturating_add(u64::from(so));
}

impl Tally {
    pub(crate) fn job(&mut self) {
        count(&mut self.jobs, true);
    }

    // Is a set an answer set? What the solver says, and what the textbook says.
    pub(crate) fn set(&mut self, got: bool, want: bool) {
        count(&mut self.sets, true);
        count(&mut self.answer_sets, want);
        self.agree(got == want);
    }

    // Which rule of a program is the first that breaks the strata?
    pub(crate) fn program(&mut self, got: Option<usize>, want: Option<usize>) {
        count(&mut self.programs, true);
        count(&mut self.stratified, want.is_none());
        self.agree(got == want);
    }

    // Does a stratified program hold?
    pub(crate) fn judgement(&mut self, got: bool, want: bool) {
        count(&mut self.judgements, true);
        count(&mut self.holding, want);
        self.agree(got == want);
    }

    // One entry of a listing, and the end of one.
    pub(crate) fn entry(&mut self, so: bool) {
        count(&mut self.entries, true);
        self.agree(so);
    }

    pub(crate) fn listing(&mut self, so: bool) {
        count(&mut self.listings, true);
        self.agree(so);
    }

    // A job that is refused, as it must be.
    pub(crate) fn refused(&mut self, so: bool) {
        count(&mut self.refusals, true);
        self.agree(so);
    }

    pub(crate) fn agree(&mut self, so: bool) {
        count(&mut self.differences, !so);
    }
}

impl fmt::Display for Tally {
    fn fmt<W: fmt::Write>(&self, f: &mut fmt::Formatter<W>) -> fmt::Result {
        let Tally {
            jobs,
            sets,
            answer_sets,
            programs,
            stratified,
            judgements,
            holding,
            listings,
            entries,
            refusals,
            differences: _,
        } = self;
        writeln!(f, "{jobs} jobs")?;
        writeln!(
            f,
            "{sets} sets tested at 6 and at 96 atoms: {answer_sets} answer sets"
        )?;
        writeln!(
            f,
            "{programs} programs asked for strata: {stratified} stratified"
        )?;
        writeln!(f, "{judgements} judgements: {holding} hold")?;
        writeln!(
            f,
            "{listings} listings to the end by either finder: {entries} entries"
        )?;
        write!(
            f,
            "{refusals} jobs refused by either finder for a given head"
        )
    }
}
