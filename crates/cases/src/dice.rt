// Numbers that look random and are the same in every run.
ghost use Rattle.std.specs.Prelude.{◌<◌};

// A xorshift generator.
#[derive(Drop)]
pub(crate) struct Dice {
    state: u64,
}

impl Dice {
    pub(crate) fn new(seed: u64) -> Dice {
        Dice { state: seed }
    }

    fn turn(&mut self) -> u64 {
        let mut x = self.state;
        x ^= x << 13;
        x ^= x >> 7;
        x ^= x << 17;
        self.state = x;
        x
    }

    // A number below the limit.
    pub(crate) fn below(&mut self, limit: u16) -> u16
        requires { 0 < limit }
        ensures { result < limit }
    {
        ((self.turn() >> 20) % u64::from(limit)) as u16
    }

    // An atom below the limit; where that is 0, the first.
    pub(crate) fn some_atom(&mut self, atoms: u16) -> u16 {
        if atoms == 0 { 0 } else { self.below(atoms) }
    }

    // Yes, once in so many times.
    pub(crate) fn once_in(&mut self, times: u16) -> bool
        requires { 0 < times }
    {
        self.below(times) == 0
    }
}
