//! Pseudo-random numbers for tests.

/// A generator of pseudo-random numbers. Each run gives the same numbers.
#[derive(Drop)]
pub struct Noise {
    pub state: u32,
}

impl Noise {
    ghost use Rattle.std.specs.Prelude.{◌<◌};

    /// Returns the next number, which is below the limit `n`.
    pub fn below(&mut self, n: u32) -> u32
        requires { 0 < n }
        ensures { result < n }
    {
        self.state = self
            .state
            .wrapping_mul(1_664_525)
            .wrapping_add(1_013_904_223);
        (self.state >> 16) % n
    }
}
