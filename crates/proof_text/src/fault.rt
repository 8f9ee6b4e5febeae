//! The faults of the text of a strategy document.

ghost use Rattle.std.specs.Prelude.{◌≡◌};
ghost use Rattle.proof_text.specs.declared.fault.ProofKind.TheVariants.{Memory as OutOfMemory};

use std::alloc::AllocError;

/// The fault of a line of a document's text.
#[derive(Clone, Copy, Debug, PartialEq, Eq)]
pub enum ProofKind {
    /// The first line isn't that of the version.
    Version = 1,
    /// The second line is no claim.
    Claim,
    /// The head of a section isn't its word and a number of rows within its limit.
    Section,
    /// A row hasn't the words of its section's rows, or a map those of a map.
    Row,
    /// A place of a row isn't one of the board's, or an answer or an image isn't a label.
    Label,
    /// The requested pebble isn't one of the board's.
    Pebble,
    /// The number of a row is out of range, or the claim doesn't allow it.
    Number,
    /// The configuration doesn't come after that of the row before.
    Order,
    /// The line `end` is missing or cut.
    End,
    /// More bytes follow the line `end`.
    Trailing,
    /// A growth of memory was refused.
    Memory,
}

/// The first fault of a document's text.
#[derive(Clone, Copy, Debug, PartialEq, Eq)]
pub struct ProofFault {
    /// The number of the faulty line, counted from 1; 0 if out of memory.
    pub line: u32,
    pub kind: ProofKind,
}

impl ProofFault {
    pub(crate) fn at(line: u32, kind: ProofKind) -> ProofFault
        ensures { result ≡ record { line = line; kind = kind } }
    {
        ProofFault { line, kind }
    }
}

impl From<AllocError> for ProofFault {
    ghost from_gives = { λ _ f. f ≡ record { line = 0; kind = OutOfMemory } };

    fn from(_error: AllocError) -> ProofFault {
        ProofFault {
            line: 0,
            kind: ProofKind::Memory,
        }
    }
}
