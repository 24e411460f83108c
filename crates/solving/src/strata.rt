// Is a program stratified? No headed rule has a negated atom that can be reached from its head.
ghost use Rattle.std.specs.Prelude.{◌≡◌, ◌<◌, ◌^◌, true, Decides, MatchOption};
ghost use Rattle.game.specs.Strata.{Breaks, FirstBreak, Stratified};
ghost use Rattle.programs.specs.Model.{head_model, model};
ghost use Rattle.programs.specs.Programs.{rules_of};
ghost use Rattle.programs.specs.Limits.{head_below};

use crate::edges::reach;
use crate::literals::some_in;
use programs::program::Program;
use programs::rule::Rule;

// Can a negated atom of the rule be reached from its head?
fn breaks<const N: usize>(program: &Program<N>, rule: &Rule) -> bool
    requires wide { N < 2 ^ 63 }
    requires head { head_below N (head_model rule.now.head) ≡ true }
    ensures { Decides result (Breaks (rules_of program.now) (model rule.now)) }
{
    match rule.head {
        None => false,
        Some(head) => {
            let reached = reach(program, usize::from(head));
            some_in(&reached, rule.negated.as_slice())
        }
    }
}

// The place of the first rule that breaks the strata, or none where the program is stratified. Rows of N marks fit in memory.
pub(crate) fn first_break<const N: usize>(program: &Program<N>) -> Option<usize>
    requires { N < 2 ^ 63 }
    ensures { MatchOption result (Stratified (rules_of program.now)) (FirstBreak (rules_of program.now)) }
{
    for (i, rule) in program.rules().iter().enumerate() {
        if breaks(program, rule) {
            return Some(i);
        }
    }
    None
}

// The same for a program over 96 atoms, as texts are, of which nothing is required.
pub fn unstratified_rule(program: &Program<96>) -> Option<usize>
    ensures { MatchOption result (Stratified (rules_of program.now)) (FirstBreak (rules_of program.now)) }
{
    first_break(program)
}
