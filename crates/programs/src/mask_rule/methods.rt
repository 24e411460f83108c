// How a rule is made into masks, and what is asked of it then.
ghost use Rattle.std.specs.Prelude.{◌≡◌, Decides};
ghost use Rattle.closure.specs.Bits.{bit_row};
ghost use Rattle.game.proofs.Rows.{row};
ghost use Rattle.game.specs.Rules.{heads, none};
ghost use Rattle.programs.specs.Model.{head_model, model};
ghost use Rattle.programs.specs.Listed.{listed, in_rows};
ghost use Rattle.programs.specs.MaskRules.{mask_rule, FiresIn};

use super::MaskRule;
use crate::rule::Rule;
use closure::mask::Mask;

// The set of the head alone, or the empty set.
fn one_of(head: Option<u16>) -> Mask
    ensures { bit_row result.bits ≡ row 96 (λ a. heads a (head_model head)) }
{
    match head {
        Some(atom) => Mask::clear().with(atom),
        None => Mask::clear(),
    }
}

// The set of the atoms on the list; those past the last are left out.
fn mask_of(atoms: &[u16]) -> Mask
    ensures { bit_row result.bits ≡ listed atoms.now }
{
    let mut set = Mask::clear();
    for atom in atoms {
        set = set.with(*atom);
    }
    set
}

impl MaskRule {
    // The rule without a head and without a body.
    pub(crate) fn empty() -> MaskRule {
        MaskRule {
            head: None,
            one: one_of(None),
            plain: Mask::clear(),
            negated: Mask::clear(),
        }
    }

    pub(crate) fn of(rule: &Rule) -> MaskRule
        ensures { mask_rule result ≡ in_rows (model rule.now) }
    {
        MaskRule {
            head: rule.head,
            one: one_of(rule.head),
            plain: mask_of(rule.plain.as_slice()),
            negated: mask_of(rule.negated.as_slice()),
        }
    }

    // The set of the head alone; the empty set for a constraint.
    pub fn one(&self) -> Mask
        ensures { result ≡ self.now.one }
    {
        self.one
    }

    // Is none of the negated atoms in `against`, and are all the plain ones in `from`?
    pub fn fires(&self, against: Mask, from: Mask) -> bool
        ensures { Decides result (FiresIn (bit_row against.bits) (bit_row from.bits) (mask_rule self.now)) }
    {
        self.negated.is_apart(against) && self.plain.is_within(from)
    }

    // The same, of a constraint.
    pub fn is_broken(&self, against: Mask, from: Mask) -> bool
        ensures { Decides result ((head_model self.now.head ≡ none) × FiresIn (bit_row against.bits) (bit_row from.bits) (mask_rule self.now)) }
    {
        self.head.is_none() && self.fires(against, from)
    }
}
