// What was compared of games, and how often the book and the second solver differ.
use crate::games::known::Known;
use crate::games::model::{Answer, Pair};
use crate::games::order::Order;
use crate::games::refused::Refused;
use crate::games::solver::Plan;
use std::fmt;

// What the second solver found in the games.
#[derive(Clone, Copy, Default)]
struct Found {
    games: u64,
    loadable: u64,
    coherent: u64,
    plans: u64,
    winning: u64,
    replies: u64,
    beating: u64,
}

// The calls, and what they told and left.
#[derive(Clone, Copy, Default)]
struct Calls {
    loads: u64,
    asks: u64,
    shown: u64,
    none: u64,
    strikes: u64,
    looks: u64,
    wipes: u64,
    pairs: u64,
    struck: u64,
}

// How many calls were refused, by the numbers of the refusals.
#[derive(Clone, Copy, Default)]
struct Refusals {
    times: [u64; 16],
}

// All counts of games.
#[derive(Clone, Copy, Default)]
pub(crate) struct Tally {
    found: Found,
    played: u64,
    lists: u64,
    calls: Calls,
    refusals: Refusals,
    pub(crate) differences: u64,
}

// So many more.
fn add(counter: &mut u64, more: usize) {
    *counter = counter.saturating_add(more as u64);
}

impl Found {
    // A game, and its plans where it can be loaded.
    fn game(&mut self, game: &Known) {
        add(&mut self.games, 1);
        if game.refused.is_some() {
            return;
        }
        add(&mut self.loadable, 1);
        add(&mut self.coherent, usize::from(game.is_coherent()));
        for plan in game.plans(Order::Counting) {
            self.plan(plan);
        }
    }

    fn plan(&mut self, plan: &Plan) {
        add(&mut self.plans, 1);
        add(&mut self.winning, usize::from(plan.wins()));
        add(&mut self.replies, plan.replies.len());
        let beating = plan.replies.iter().filter(|reply| reply.beats);
        add(&mut self.beating, beating.count());
    }
}

impl Refusals {
    fn add(&mut self, cause: u8) {
        if let Some(counter) = self.times.get_mut(usize::from(cause)) {
            add(counter, 1);
        }
    }
}

// Each takes what the book answers, and what it must answer.
impl Tally {
    pub(crate) fn agree(&mut self, so: bool) {
        add(&mut self.differences, usize::from(!so));
    }

    pub(crate) fn game(&mut self, game: &Known) {
        self.found.game(game);
    }

    // A game that was played to its end.
    pub(crate) fn played(&mut self, so: bool) {
        add(&mut self.played, 1);
        self.agree(so);
    }

    // A list of calls.
    pub(crate) fn list(&mut self) {
        add(&mut self.lists, 1);
    }

    pub(crate) fn load(&mut self, got: Option<Refused>, want: Option<Refused>) {
        add(&mut self.calls.loads, 1);
        if let Some(refused) = want {
            self.refusals.add(refused.cause);
        }
        self.agree(got == want);
    }

    pub(crate) fn ask(&mut self, got: Result<Answer, u8>, want: Result<Answer, u8>) {
        add(&mut self.calls.asks, 1);
        match want {
            Ok(answer) => {
                add(&mut self.calls.shown, usize::from(answer.verdict == 1));
                add(&mut self.calls.none, usize::from(answer.verdict == 2));
            }
            Err(cause) => self.refusals.add(cause),
        }
        self.agree(got == want);
    }

    pub(crate) fn strike(&mut self, got: Option<u8>, want: Option<u8>) {
        add(&mut self.calls.strikes, 1);
        if let Some(cause) = want {
            self.refusals.add(cause);
        }
        self.agree(got == want);
    }

    pub(crate) fn look(&mut self, got: Result<Pair, u8>, want: Result<Pair, u8>) {
        add(&mut self.calls.looks, 1);
        if let Err(cause) = want {
            self.refusals.add(cause);
        }
        self.agree(got == want);
    }

    pub(crate) fn wipe(&mut self) {
        add(&mut self.calls.wipes, 1);
    }

    // What a book holds after a call: so many pairs and struck plans.
    pub(crate) fn read(&mut self, pairs: usize, struck: usize, so: bool) {
        add(&mut self.calls.pairs, pairs);
        add(&mut self.calls.struck, struck);
        self.agree(so);
    }
}

impl fmt::Display for Found {
    fn fmt<W: fmt::Write>(&self, f: &mut fmt::Formatter<W>) -> fmt::Result {
        let Found {
            games,
            loadable,
            coherent,
            plans,
            winning,
            replies,
            beating,
        } = self;
        writeln!(
            f,
            "{games} games: {loadable} load, {coherent} of them coherent"
        )?;
        write!(
            f,
            "{plans} plans: {winning} win; {replies} replies: {beating} beat their plans"
        )
    }
}

impl fmt::Display for Calls {
    fn fmt<W: fmt::Write>(&self, f: &mut fmt::Formatter<W>) -> fmt::Result {
        let Calls {
            loads,
            asks,
            shown,
            none,
            strikes,
            looks,
            wipes,
            pairs,
            struck,
        } = self;
        write!(
            f,
            "{loads} loads, {strikes} strikes, {looks} looks, {wipes} wipes, "
        )?;
        writeln!(f, "{asks} asks: {shown} show a plan, {none} tell of none")?;
        write!(
            f,
            "{pairs} pairs and {struck} struck plans read after the calls"
        )
    }
}

impl fmt::Display for Refusals {
    fn fmt<W: fmt::Write>(&self, f: &mut fmt::Formatter<W>) -> fmt::Result {
        write!(f, "calls refused, by number:")?;
        for (number, times) in self.times.iter().enumerate() {
            if *times != 0 {
                write!(f, " [{number}] {times}")?;
            }
        }
        Ok(())
    }
}

impl fmt::Display for Tally {
    fn fmt<W: fmt::Write>(&self, f: &mut fmt::Formatter<W>) -> fmt::Result {
        let Tally {
            found,
            played,
            lists,
            calls,
            refusals,
            differences: _,
        } = self;
        writeln!(f, "{found}")?;
        writeln!(
            f,
            "{played} games played to the end, {lists} lists of calls"
        )?;
        writeln!(f, "{calls}")?;
        write!(f, "{refusals}")
    }
}
