//! The ranks of a gap's members.

ghost use Rattle.std.specs.Prelude.{◌≡◌, ◌+◌, ◌*◌, ◌<◌, ◌^◌};

/// The ranks of a gap's members: the rank of the member with place 0, and the difference between
/// neighbours.
#[derive(Clone, Copy, Debug, PartialEq, Eq)]
pub struct Members {
    pub first: u32,
    pub step: u32,
}

impl Members {
    /// The rank of the member with `place` for the gap's pebble.
    pub fn rank(self, place: u16) -> u32
        requires { self.first + place * self.step < 2 ^ 32 }
        ensures { result ≡ self.first + place * self.step }
    {
        self.first + place as u32 * self.step
    }
}
