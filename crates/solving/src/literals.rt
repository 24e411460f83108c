// Tests of a rule's literals against rows.
ghost use Rattle.std.specs.Prelude.{◌≡◌};
ghost use Rattle.game.specs.Derives.{all_in, none_in, fires as firing};
ghost use Rattle.programs.specs.Model.{model};
ghost use Rattle.game.specs.Published.{any_in};

use closure::row::Row;
use programs::rule::Rule;

// Is every atom in the row?
fn all_in<const N: usize>(row: &Row<N>, atoms: &[u16]) -> bool
    ensures { result ≡ all_in row.now.marks atoms.now }
{
    for atom in atoms {
        if !row.has(*atom) {
            return false;
        }
    }
    true
}

// Is some atom in the row?
pub(crate) fn some_in<const N: usize>(row: &Row<N>, atoms: &[u16]) -> bool
    ensures { result ≡ any_in row.now.marks atoms.now }
{
    for atom in atoms {
        if row.has(*atom) {
            return true;
        }
    }
    false
}

// Is no atom in the row?
fn none_in<const N: usize>(row: &Row<N>, atoms: &[u16]) -> bool
    ensures { result ≡ none_in row.now.marks atoms.now }
{
    !some_in(row, atoms)
}

// Does the reduct for `against` keep the rule, with its plain atoms in `from`?
pub(crate) fn fires<const N: usize>(rule: &Rule, against: &Row<N>, from: &Row<N>) -> bool
    ensures { result ≡ firing against.now.marks from.now.marks (model rule.now) }
{
    none_in(against, rule.negated.as_slice()) && all_in(from, rule.plain.as_slice())
}
