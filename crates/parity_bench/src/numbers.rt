// Numbers that follow one another by a fixed rule.
ghost use Rattle.std.specs.Prelude.{◌<◌};

/// Gives one number after another.
#[derive(Clone, Copy, Debug)]
pub struct Numbers {
    state: u64,
}

impl Numbers {
    /// The numbers of a seed.
    pub fn new(seed: u64) -> Numbers {
        Numbers { state: seed }
    }

    /// The next number, below another one that isn't 0.
    pub fn below(&mut self, end: u32) -> u32
        requires { 0 < end }
        ensures { result < end }
    {
        self.state = self
            .state
            .wrapping_mul(6364136223846793005)
            .wrapping_add(1442695040888963407);
        (self.state >> 33) as u32 % end
    }
}
