// Numbers that look drawn by lot and are the same each time.

#[derive(Clone, Copy)]
pub struct Numbers {
    state: u32,
}

impl Numbers {
    pub fn new(seed: u32) -> Numbers {
        Numbers { state: seed }
    }

    // A number below `count`, which is at most 65,536.
    pub fn below(&mut self, count: u32) -> u32 {
        self.state = self
            .state
            .wrapping_mul(1_664_525)
            .wrapping_add(1_013_904_223);
        (self.state / 65_536).wrapping_mul(count) / 65_536
    }

    pub fn word(&mut self) -> u16 {
        (self.below(65_535) & 0xffff) as u16
    }
}
