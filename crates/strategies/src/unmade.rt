//! Why a document by classes isn't made.

ghost use Rattle.std.specs.Prelude.{◌≡◌};
ghost use Rattle.strategies.specs.declared.unmade.Unmade.TheVariants as faults;

use board_text::Memory;
use std::alloc::AllocError;

/// Why a document by classes isn't made.
#[derive(Clone, Copy, Debug, PartialEq, Eq)]
pub enum Unmade {
    /// A growth of memory was refused.
    Memory,
    /// Its text has more bytes than it may have.
    TooLong,
}

impl From<Memory> for Unmade {
    ghost from_gives = { λ _ told. told ≡ faults.Memory };

    fn from(_fault: Memory) -> Unmade {
        Unmade::Memory
    }
}

impl From<AllocError> for Unmade {
    ghost from_gives = { λ _ told. told ≡ faults.Memory };

    fn from(_fault: AllocError) -> Unmade {
        Unmade::Memory
    }
}
