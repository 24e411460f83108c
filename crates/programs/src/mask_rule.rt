// A rule as masks.
ghost use Rattle.std.specs.Prelude.{◌≡◌};
ghost use Rattle.closure.specs.Bits.{bit_row};
ghost use Rattle.game.proofs.Rows.{row};
ghost use Rattle.game.specs.Rules.{heads};
ghost use Rattle.programs.specs.Model.{head_model};

use closure::mask::Mask;

pub mod methods;

// The head, also as a set, and the sets of the plain and the negated atoms.
#[derive(Clone, Copy)]
pub struct MaskRule {
    pub head: Option<u16>,
    one: Mask,
    plain: Mask,
    negated: Mask,
    ghost told: { bit_row one.bits ≡ row 96 (λ a. heads a (head_model head)) },
}
