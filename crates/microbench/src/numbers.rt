/// Lists of numbers in no order, always the same.
#[derive(Clone, Copy)]
pub struct Numbers {
    state: u64,
}

impl Numbers {
    /// The list that begins with a number.
    pub fn new(seed: u64) -> Numbers {
        Numbers { state: seed }
    }

    /// The next one, below a limit of at least 1.
    pub fn below(&mut self, limit: u64) -> u64 {
        self.state = self
            .state
            .wrapping_mul(6_364_136_223_846_793_005)
            .wrapping_add(1_442_695_040_888_963_407);
        (self.state >> 33) % limit.max(1)
    }
}
