// What a sheet and the struck plans must be, whatever calls made them.
use crate::games::model::Pair;
use crate::games::solver::Plan;

// Does the reply beat the plan, and is it a reply to it?
fn beats(pair: &Pair, plans: &[Plan]) -> bool {
    plans.iter().any(|plan| plan.set == pair.plan && plan.is_beaten_by(pair.reply))
}

// Has no earlier pair the plan or the reply of the one at this place?
fn is_new(sheet: &[Pair], place: usize, pair: &Pair) -> bool {
    sheet.iter().take(place).all(|earlier| earlier.plan != pair.plan && earlier.reply != pair.reply)
}

// Each reply beats its plan; all plans differ, and all replies.
pub(crate) fn is_sheet(sheet: &[Pair], plans: &[Plan]) -> bool {
    sheet.iter().enumerate().all(|(place, pair)| beats(pair, plans) && is_new(sheet, place, pair))
}

// Is the plan among the struck ones?
fn is_struck(struck: &[Pair], plan: &Plan) -> bool {
    struck.iter().any(|pair| pair.plan == plan.set)
}

// Each struck plan is one that wins, and all differ.
pub(crate) fn are_winners(struck: &[Pair], plans: &[Plan]) -> bool {
    let winning = plans
        .iter()
        .filter(|plan| plan.wins() && is_struck(struck, plan));
    winning.count() == struck.len()
}

// Is each plan that is not struck beaten from the sheet? So it must be after "no plan", while the sheet is not full.
pub(crate) fn is_reason(sheet: &[Pair], struck: &[Pair], plans: &[Plan]) -> bool {
    sheet.len() >= 256
        || plans.iter().all(|plan| is_struck(struck, plan)
            || sheet.iter().any(|pair| plan.is_beaten_by(pair.reply)))
}

// Are the struck plans the first that win, in the order of the plans, and all of them while fewer than 64 are struck?
pub(crate) fn are_first_winners(struck: &[Pair], plans: &[Plan]) -> bool {
    let mut winning = plans.iter().filter(|plan| plan.wins());
    for pair in struck {
        if !winning.next().is_some_and(|plan| plan.set == pair.plan) {
            return false;
        }
    }
    struck.len() >= 64 || winning.next().is_none()
}
