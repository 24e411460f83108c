// The side that the game is played on.
ghost use Rattle.loading.specs.Sided.{Sided};

use refusals::fault::Fault;

#[derive(Clone, Copy, PartialEq, Eq, Debug)]
pub enum Side {
    // Some plan, every reply, the site text holds.
    SomePlan,
    // Every plan, some reply, the site text holds.
    EveryPlan,
}

// Question 1: is the side 1 or 2?
impl TryFrom<u8> for Side {
    type Error = Fault;

    ghost try_from_gives = { Sided };

    fn try_from(number: u8) -> Result<Self, Fault> {
        match number {
            1 => Ok(Side::SomePlan),
            2 => Ok(Side::EveryPlan),
            _ => Err(Fault::WrongSide),
        }
    }
}
