//! Numbers that look random and are the same at each run.

ghost use Rattle.std.specs.Prelude.{◌<◌};

/// Drawn numbers, one after the other.
#[derive(Drop)]
pub struct Draws {
    state: u64,
}

impl Draws {
    /// The draws that follow this number.
    pub fn after(state: u64) -> Draws {
        Draws { state }
    }

    /// A number below the bound.
    pub fn below(&mut self, bound: u32) -> u32
        requires { 0 < bound }
        ensures { result < bound }
    {
        self.state = self
            .state
            .wrapping_mul(6_364_136_223_846_793_005)
            .wrapping_add(1);
        let high = (self.state >> 32) as u32;
        high % bound
    }
}
