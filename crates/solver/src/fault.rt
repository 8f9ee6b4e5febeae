//! The faults of solving a board.

ghost use Rattle.std.specs.Prelude.{◌≡◌};
ghost use Rattle.solver.specs.declared.fault.SolveFault.TheVariants as faults;

use board_text::Memory;
use thiserror::Error;

/// The reason why a board was not solved.
#[derive(Clone, Copy, Debug, Error, PartialEq, Eq)]
pub enum SolveFault {
    /// The board has more than `MAX_CONFIGURATIONS` configurations.
    #[error("board too large")]
    TooLarge = 1,
    /// A growth of memory was refused.
    #[error("out of memory")]
    Memory,
    /// A thread couldn't be started. `Solver::open` starts none.
    #[error("worker not started")]
    Worker,
}

impl From<Memory> for SolveFault {
    ghost from_gives = { λ _ fault. fault ≡ faults.Memory };

    fn from(_refused: Memory) -> SolveFault {
        SolveFault::Memory
    }
}
