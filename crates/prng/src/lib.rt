//! Numbers that look random, the same in every run.
#![tactic(auto)]

ghost use Rattle.std.specs.Prelude.{◌≡◌, ◌+◌, ◌*◌, ◌/◌, ◌%◌, ◌^◌, ◌<◌, max};

/// A linear congruential generator with a state of 64 bits.
#[derive(Debug, PartialEq, Eq, Drop)]
pub struct Random {
    state: u64,
}

impl Random {
    pub fn new(seed: u64) -> Random
        ensures { result.state ≡ seed }
    {
        Random { state: seed }
    }

    /// A number below `n`, or 0 where there is none: by the 31 highest bits of the next state.
    pub fn below(&mut self, n: u32) -> u32
        ensures step { self.new.state ≡ (self.old.state * 6364136223846793005 + 1442695040888963407) % 2 ^ 64 }
        ensures drawn { result ≡ self.new.state / 2 ^ 33 % max n 1 }
    {
        self.state = self
            .state
            .wrapping_mul(6_364_136_223_846_793_005)
            .wrapping_add(1_442_695_040_888_963_407);
        let high = (self.state >> 33) as u32;
        high % n.max(1)
    }
}
