ghost use Rattle.std.specs.Prelude.{◌<◌};

/// Numbers that are drawn from a seed: the upper halves of Knuth's linear congruential sequence.
#[derive(Clone, Copy)]
pub struct Random {
    state: u64,
}

impl Random {
    pub fn new(seed: u32) -> Random {
        let mut random = Random {
            state: u64::from(seed),
        };
        random.draw();
        random
    }

    /// The next number.
    pub fn draw(&mut self) -> u32 {
        self.state = self
            .state
            .wrapping_mul(6_364_136_223_846_793_005)
            .wrapping_add(1_442_695_040_888_963_407);
        (self.state >> 32) as u32
    }

    /// The next number below this one.
    pub fn below(&mut self, count: u32) -> u32
        requires { 0 < count }
        ensures { result < count }
    {
        self.draw() % count
    }

    /// Whether the next number is a multiple of the count.
    pub fn one_in(&mut self, count: u32) -> bool
        requires { 0 < count }
    {
        self.below(count) == 0
    }
}
