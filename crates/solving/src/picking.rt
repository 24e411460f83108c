// A growing step by which the heads of the rules that are picked follow.
ghost use Rattle.std.specs.Prelude.{◌≡◌, Bool, List};
ghost use Rattle.game.specs.Rules.{Rule as Meant};
ghost use Rattle.programs.specs.Model.{model};
ghost use Rattle.programs.specs.Programs.{rules_of};
ghost use Rattle.solving.specs.Following.{PicksMore, picked_grows};
ghost use Rattle.solving.specs.Tests.{headed_by};

use closure::row::Row;
use closure::step::Step;
use programs::program::Program;
use programs::rule::Rule;

// What picks rules by a set; a larger set picks no fewer.
pub(crate) trait Picks<const N: usize> {
    ghost chosen: { Self → List Bool → Meant → Bool };

    ghost picks_more: { PicksMore chosen };

    fn picks(&self, rule: &Rule, from: &Row<N>) -> bool
        ensures { result ≡ chosen self.now from.now.marks (model rule.now) };
}

// The rules of the program that are picked.
#[derive(Drop)]
pub(crate) struct Picked<'a, const N: usize, P> {
    pub(crate) program: &'a Program<N>,
    pub(crate) picker: P,
}

impl<'a, const N: usize, P: Picks<N>> Step<N, Row<N>> for Picked<'a, N, P> {
    ghost follows = { λ s from a. headed_by (P.chosen s.picker from) (rules_of s.program.now) a };

    ghost laws = { record { grows = λ s a b wide wide' within i. picked_grows P.picks_more s.picker (rules_of s.program.now) a b within i } };

    fn mark(&self, from: &Row<N>, out: &mut Row<N>) {
        for rule in self.program.rules() {
            if let Some(head) = rule.head {
                if self.picker.picks(rule, from) {
                    out.put(head);
                }
            }
        }
    }
}
