// Runs small random programs through the solver, and random games through the calls of a book, and compares what they say with
// a second solver of its own.
#![tactic(auto)]

mod dice;
mod games;
mod jobs;
mod layers;
mod line;
mod paths;
mod subset;
mod textbook;

use dice::Dice;
use games::known::Known;
use games::order::Order;
use games::playing::{play, some_calls};
use games::some::{beaten_game, some_game, winning_game};
use jobs::comparing::compare;
use jobs::making::some_job;

// The seeds of the single programs.
static JOB_SEEDS: [u64; 4] = [1_729, 65_537, 8_675_309, 2_718_281_828];

// So many jobs for each seed.
const JOBS: u32 = 150;

// The seeds of the games that are played.
static GAME_SEEDS: [u64; 4] = [31_415_926, 271_828, 1_618_033, 577_215];

// So many games for each seed.
const GAMES: u32 = 250;

// The seed of the blanks in the large games.
const LARGE_SEED: u64 = 1_414_213;

// The seeds of the lists of calls.
static LIST_SEEDS: [u64; 4] = [9_192_631, 299_792_458, 6_022_140, 8_314_462];

// So many lists of calls for each seed.
const LISTS: u32 = 100;

// A job on which the solvers differ is printed.
fn run_jobs(rt: &HostRuntime, seed: u64, tally: &mut jobs::tally::Tally) -> anyhow::Result<()> {
    let mut dice = Dice::new(seed);
    for _ in 0..JOBS {
        let job = some_job(rt.alloc(), &mut dice)?;
        let before = tally.differences;
        compare(rt.alloc(), &job, tally)?;
        if tally.differences != before {
            println!(rt; "{job}")?;
        }
    }
    Ok(())
}

// The side and the texts of each game.
fn print_games(rt: &HostRuntime, games: &[Known]) -> anyhow::Result<()> {
    for known in games {
        let game = &known.game;
        println!(rt; "{game}")?;
    }
    Ok(())
}

// Plays a game to its end with finders of these orders. One on which the solvers differ is printed.
fn run_game(
    rt: &HostRuntime,
    known: Known,
    orders: &[Order],
    tally: &mut games::tally::Tally,
) -> anyhow::Result<()> {
    let before = tally.differences;
    tally.game(&known);
    let games = [known];
    for order in orders {
        play(rt.alloc(), &games, *order, tally)?;
    }
    if tally.differences != before {
        print_games(rt, &games)?;
    }
    Ok(())
}

// Games by dice, each with either finder.
fn run_games(rt: &HostRuntime, seed: u64, tally: &mut games::tally::Tally) -> anyhow::Result<()> {
    let mut dice = Dice::new(seed);
    for _ in 0..GAMES {
        let known = some_game(rt.alloc(), &mut dice)?;
        run_game(rt, known, &[Order::Counting, Order::Branching], tally)?;
    }
    Ok(())
}

// Games with more plans than a book can strike, or note on its sheet.
fn run_large_games(rt: &HostRuntime, tally: &mut games::tally::Tally) -> anyhow::Result<()> {
    let mut dice = Dice::new(LARGE_SEED);
    let known = winning_game(rt.alloc(), &mut dice)?;
    run_game(rt, known, &[Order::Counting, Order::Branching], tally)?;
    let known = beaten_game(rt.alloc(), &mut dice)?;
    run_game(rt, known, &[Order::Branching], tally)
}

// Lists of calls over three games each, which are printed where the solvers differ.
fn run_lists(rt: &HostRuntime, seed: u64, tally: &mut games::tally::Tally) -> anyhow::Result<()> {
    let mut dice = Dice::new(seed);
    for _ in 0..LISTS {
        let games = [
            some_game(rt.alloc(), &mut dice)?,
            some_game(rt.alloc(), &mut dice)?,
            some_game(rt.alloc(), &mut dice)?,
        ];
        let before = tally.differences;
        some_calls(rt.alloc(), &mut dice, &games, tally)?;
        if tally.differences != before {
            print_games(rt, &games)?;
        }
    }
    Ok(())
}

// Prints what was compared, and how often the solvers differ.
fn run(rt: &HostRuntime) -> anyhow::Result<()> {
    let mut jobs = jobs::tally::Tally::default();
    for seed in JOB_SEEDS {
        run_jobs(rt, seed, &mut jobs)?;
    }
    println!(rt; "{jobs}")?;
    let mut games = games::tally::Tally::default();
    for seed in GAME_SEEDS {
        run_games(rt, seed, &mut games)?;
    }
    run_large_games(rt, &mut games)?;
    for seed in LIST_SEEDS {
        run_lists(rt, seed, &mut games)?;
    }
    println!(rt; "{games}")?;
    let differences = jobs.differences.saturating_add(games.differences);
    println!(rt; "{differences} differences")?;
    Ok(())
}

fn main(rt: HostRuntime) -> anyhow::Result<()> {
    run(&rt)
}
