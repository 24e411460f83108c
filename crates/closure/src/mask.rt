// A set of atoms below 96, as the bits of one number.
ghost use Rattle.std.specs.Prelude.{◌<◌, ◌^◌};

pub mod methods;

#[derive(Clone, Copy, PartialEq, Eq)]
pub struct Mask {
    bits: u128,
    ghost small: { bits < 2 ^ 96 },
}
