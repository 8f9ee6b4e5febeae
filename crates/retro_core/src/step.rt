//! The steps of the machine, and the answers and faults of steps.

ghost use Rattle.std.specs.Prelude.{◌≡◌};
ghost use Rattle.retro_core.specs.declared.step.StepFault.TheVariants as faults;

use board_text::Memory;
use thiserror::Error;

/// A step of a seat, or of two seats. Seats have numbers in
/// the order in which they were made, from 0.
#[derive(Clone, Copy, Debug, PartialEq, Eq)]
pub enum Step {
    /// The seat strikes the first configuration that it has to strike.
    Strike(usize),
    /// The seat claims the first configuration that it owes. A single try decides: the
    /// configuration is won, or was won before.
    Try(usize),
    /// The seat gives half of its width, and half of the configurations
    /// that it has to strike, to a new seat.
    Split(usize),
    /// The seat `from` gives all that it has to the seat `into`, and is no seat any more.
    Join { into: usize, from: usize },
}

/// The answer of a step that was made.
#[derive(Clone, Copy, Debug, PartialEq, Eq)]
pub enum Seen {
    /// A configuration was struck; and if that was the last live answer of a gap, the gap, whose
    /// open members are now owed.
    Struck { config: u32, closed: Option<u32> },
    /// A configuration that was owed was claimed: it is won now, or was won before.
    Tried { config: u32, won: bool },
    /// The new seat.
    Parted { seat: usize },
    /// The two seats are one.
    Joined,
}

/// The reason why a step was not made: the first that holds.
#[derive(Clone, Copy, Debug, Error, PartialEq, Eq)]
pub enum StepFault {
    /// A number is that of no seat, or both are the same.
    #[error("no such seat")]
    NoSuchSeat,
    /// A seat of width 1 can't be split.
    #[error("seat too narrow")]
    TooNarrow,
    /// The seat has nothing to strike.
    #[error("nothing to strike")]
    NothingToStrike,
    /// The seat owes nothing.
    #[error("nothing owed")]
    NothingOwed,
    /// A growth of memory was refused.
    #[error("out of memory")]
    Memory,
}

impl From<Memory> for StepFault {
    ghost from_gives = { λ _ fault. fault ≡ faults.Memory };

    fn from(_refused: Memory) -> StepFault {
        StepFault::Memory
    }
}
