// Games played to their ends, and random lists of calls.
use crate::dice::Dice;
use crate::games::known::Known;
use crate::games::order::Order;
use crate::games::tally::Tally;
use crate::games::trial::Trial;
use std::alloc::{AllocError, Global};

// Asks and strikes in turn until no plan is shown, and asks once more. Of more than 64 that win the last strikes are refused.
pub(crate) fn play(
    heap: Global,
    games: &[Known],
    order: Order,
    tally: &mut Tally,
) -> Result<(), AllocError> {
    let mut trial = Trial::new(heap, games, tally);
    trial.load(0)?;
    for _ in 0..67 {
        if !trial.ask(order)? {
            break;
        }
        trial.strike()?;
    }
    trial.ask(order)?;
    trial.end(order)
}

// A call by dice, to a book with three games.
fn some_call(dice: &mut Dice, trial: &mut Trial<'_>) -> Result<(), AllocError> {
    match dice.below(24) {
        0..3 => trial.load(usize::from(dice.below(3))),
        3 => trial.load_on(
            usize::from(dice.below(3)),
            if dice.once_in(2) { 0 } else { 3 },
        ),
        4..9 => {
            trial.ask(Order::Counting)?;
            Ok(())
        }
        9..14 => {
            trial.ask(Order::Branching)?;
            Ok(())
        }
        14..19 => trial.strike(),
        19 => trial.wipe(),
        _ => trial.look(dice.below(4) as u8, usize::from(dice.below(6))),
    }
}

// Up to thirty calls to a new book.
pub(crate) fn some_calls(
    heap: Global,
    dice: &mut Dice,
    games: &[Known],
    tally: &mut Tally,
) -> Result<(), AllocError> {
    tally.list();
    let mut trial = Trial::new(heap, games, tally);
    if !dice.once_in(5) {
        trial.load(0)?;
    }
    for _ in 0..dice.below(30) {
        some_call(dice, &mut trial)?;
    }
    Ok(())
}
