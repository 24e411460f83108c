// Constraints that rows break.
ghost use Rattle.std.specs.Prelude.{◌≡◌, ◌&&◌};
ghost use Rattle.game.specs.Derives.{fires as firing};
ghost use Rattle.programs.specs.Model.{head_model, model, models};
ghost use Rattle.solving.specs.Tests.{constraint, violated, violated_on};

use crate::literals::fires;
use closure::row::Row;
use programs::rule::Rule;

// Has some constraint none of its negated atoms in `against`, and all its plain atoms in `from`?
pub(crate) fn violates_on<const N: usize>(rules: &[Rule], against: &Row<N>, from: &Row<N>) -> bool
    ensures { result ≡ violated_on (models rules.now) against.now.marks from.now.marks }
{
    rules.iter().any(
        |rule: &Rule| -> bool
            ensures { result ≡ (constraint (head_model rule.now.head) && firing against.entry.now.marks from.entry.now.marks (model rule.now)) }
        { rule.head.is_none() && fires(rule, against, from) },
    )
}

// Has some constraint all its plain atoms and none of its negated atoms in the row?
pub(crate) fn violates<const N: usize>(rules: &[Rule], row: &Row<N>) -> bool
    ensures { result ≡ violated (models rules.now) row.now.marks }
{
    violates_on(rules, row, row)
}
