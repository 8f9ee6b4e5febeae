//! The faults of a board's text.

ghost use Rattle.std.specs.Prelude.{◌≡◌};
ghost use Rattle.board_text.specs.declared.fault.BoardKind.TheVariants.{Memory as OutOfMemory};

use std::alloc::AllocError;

/// The kind of a fault of a board's text.
#[derive(Clone, Copy, Debug, PartialEq, Eq)]
pub enum BoardKind {
    /// The first line isn't `board 1` or `board 2`.
    Version = 1,
    /// The second line isn't `labels` and a number from 1 to `MAX_LABELS`.
    Labels,
    /// The third line isn't `pebbles` and a number from 1 to `MAX_PEBBLES`.
    Pebbles,
    /// The fourth line isn't `start` and a label for each pebble; in `board 2` a label or `-`, and
    /// at least one `-`.
    Start,
    /// A line among the pairs isn't `beats` and two labels.
    Beats,
    /// A label beats itself.
    SelfBeat,
    /// An earlier line has the pair the other way round.
    TwoWay,
    /// The pair doesn't come after that of the line before.
    Order,
    /// The line `end` is missing or cut.
    End,
    /// The text goes on after the line `end`.
    Trailing,
    /// A growth of memory was refused.
    Memory,
}

/// The first fault of a board's text.
#[derive(Clone, Copy, Debug, PartialEq, Eq)]
pub struct BoardFault {
    /// The number of the faulty line, counted from 1; 0 if memory ran out.
    pub line: u32,
    pub kind: BoardKind,
}

impl BoardFault {
    pub(crate) fn at(line: u32, kind: BoardKind) -> BoardFault
        ensures { result ≡ record { line = line; kind = kind } }
    {
        BoardFault { line, kind }
    }
}

impl From<AllocError> for BoardFault {
    ghost from_gives = { λ _ f. f ≡ record { line = 0; kind = OutOfMemory } };

    fn from(_error: AllocError) -> BoardFault {
        BoardFault {
            line: 0,
            kind: BoardKind::Memory,
        }
    }
}
