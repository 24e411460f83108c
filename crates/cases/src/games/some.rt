// Games by dice.
use crate::dice::Dice;
use crate::games::known::Known;
use crate::games::making::{Maker, Sizes};
use crate::games::names::Kind;
use crate::games::spelling::spelled;
use crate::games::texts::{Game, Text};
use crate::line::{Line, Literal};
use std::alloc::{AllocError, Global};

// Side 1 or 2; once in forty times another one.
fn some_side(dice: &mut Dice) -> u8 {
    match dice.below(80) {
        0 => 0,
        1 => 3,
        number if number % 2 == 0 => 1,
        _ => 2,
    }
}

// A text; once in thirty times it cannot be read.
fn some_text(heap: Global, dice: &mut Dice, kind: Kind, sizes: Sizes) -> Result<Text, AllocError> {
    let lines = Maker::new(heap, dice, kind, sizes)?.lines()?;
    let broken = if dice.once_in(30) {
        Some(usize::from(dice.below(8)))
    } else {
        None
    };
    spelled(heap, lines, broken, dice)
}

// A game of texts of up to ten heads; some are refused.
pub(crate) fn some_game(heap: Global, dice: &mut Dice) -> Result<Known, AllocError> {
    let sizes = Sizes::some(dice);
    let game = Game {
        side: some_side(dice),
        plan: some_text(heap, dice, Kind::Plan, sizes)?,
        faults: some_text(heap, dice, Kind::Faults, sizes)?,
        site: some_text(heap, dice, Kind::Site, sizes)?,
    };
    Known::of(heap, game)
}

// The text of so many choices among so many heads each.
fn choices(heap: Global, dice: &mut Dice, count: u16, size: u16) -> Result<Text, AllocError> {
    let sizes = Sizes {
        plan: count.saturating_mul(size),
        faults: 0,
        site: 0,
    };
    let lines = Maker::new(heap, dice, Kind::Plan, sizes)?.choices(count, size)?;
    spelled(heap, lines, None, dice)
}

// A game with 81 plans, which all win: more than can be struck.
pub(crate) fn winning_game(heap: Global, dice: &mut Dice) -> Result<Known, AllocError> {
    let game = Game {
        side: 1,
        plan: choices(heap, dice, 4, 3)?,
        faults: spelled(heap, Vec::new(heap), None, dice)?,
        site: spelled(heap, Vec::new(heap), None, dice)?,
    };
    Known::of(heap, game)
}

// A rule for each of nine choices among two, which tells with an atom of its own whether the first is chosen.
fn mirror(heap: Global) -> Result<Vec<Line>, AllocError> {
    let mut lines = Vec::new(heap);
    for choice in 0..9u16 {
        let literal = Literal {
            negated: false,
            atom: 2 * choice,
        };
        lines.push(Line {
            head: Some(18 + choice),
            body: vec![in heap; literal]?,
        })?;
    }
    Ok(lines)
}

// A game with 512 plans, which are all beaten, each by a reply of its own: more pairs than stand on a sheet.
pub(crate) fn beaten_game(heap: Global, dice: &mut Dice) -> Result<Known, AllocError> {
    let never = Line {
        head: None,
        body: Vec::new(heap),
    };
    let game = Game {
        side: 1,
        plan: choices(heap, dice, 9, 2)?,
        faults: spelled(heap, mirror(heap)?, None, dice)?,
        site: spelled(heap, vec![in heap; never]?, None, dice)?,
    };
    Known::of(heap, game)
}
