// Numbers that vary, and are the same in every run.

#[derive(Drop)]
pub struct Numbers {
    state: u64,
}

impl Numbers {
    pub(crate) fn new() -> Self {
        Numbers { state: 1 }
    }

    pub(crate) fn next(&mut self) -> u32 {
        let state = self
            .state
            .wrapping_mul(6_364_136_223_846_793_005)
            .wrapping_add(1_442_695_040_888_963_407);
        self.state = state;
        (state >> 32) as u32
    }

    // A number from 0 to one below `count`; 0 where that is 0.
    pub(crate) fn below(&mut self, count: u32) -> u32 {
        self.next().checked_rem(count).unwrap_or(0)
    }
}
