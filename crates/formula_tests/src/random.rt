//! Random numbers, the same ones on every run.

/// A linear congruential generator modulo 2^64.
#[derive(Drop)]
pub(crate) struct Random {
    state: u64,
}

impl Random {
    /// The generator that starts from a number.
    pub(crate) fn new(seed: u64) -> Random {
        Random { state: seed }
    }

    /// A number below a bound, and 0 where the bound is 0; it is taken from the upper half of the state.
    pub(crate) fn below(&mut self, bound: u32) -> u32 {
        self.state = self
            .state
            .wrapping_mul(6_364_136_223_846_793_005)
            .wrapping_add(1_442_695_040_888_963_407);
        let bits = (self.state >> 32) as u32;
        bits.checked_rem(bound).unwrap_or(0)
    }

    /// A byte, often 0, 1, 2 or 255.
    pub(crate) fn byte(&mut self) -> u8 {
        match self.below(6) {
            0 => 0,
            1 => 255,
            2 | 3 => (self.below(3) & 0xff) as u8,
            _ => (self.below(256) & 0xff) as u8,
        }
    }
}
