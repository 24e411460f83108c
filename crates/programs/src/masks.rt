// The rules of a program as masks.
ghost use Rattle.std.specs.Prelude.{◌≡◌, ◌≤◌, length};

use crate::mask_rule::MaskRule;
use closure::mask::Mask;

pub mod methods;

// As many rules as a program has at most.
pub(crate) const ROOM: usize = 256;

// The first `count` are rules; with the set of their heads.
#[derive(Drop)]
pub struct Masks {
    rules: [MaskRule; ROOM],
    count: usize,
    heads: Mask,
    ghost room: { length rules ≡ 256 },
    ghost few: { count ≤ 256 },
}
