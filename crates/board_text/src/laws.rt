//! Laws of the texts of boards, each the contract of a function without a body.

ghost use Rattle.std.specs.Prelude.{◌≡◌, ◌≢◌, ℕ, ◌⊎◌, List};
ghost use Rattle.board_text.specs.PlainBoard.{PlainBoard, IsBoard};
ghost use Rattle.board_text.specs.BoardText.{board_text};
ghost use Rattle.board_text.specs.BoardFaults.{HasBoardFault};
ghost use Rattle.board_text.specs.Readings.{IsBoardText, IsFaulty};
ghost use Rattle.board_text.specs.declared.fault.BoardKind.{BoardKind as Kind};
ghost use Rattle.board_text.specs.declared.fault.BoardKind.TheVariants.{Memory as OutOfMemory};

use crate::board::{MAX_LABELS, MAX_PEBBLES};

/// A text is that of one board at most.
#[tactic(auto, using(crate::proofs::OneReading::one_board))]
pub fn one_board()
    ensures { (first : PlainBoard) → (second : PlainBoard) → IsBoard first → IsBoard second
        → board_text first ≡ board_text second
        → first ≡ second }
{}

/// A text has at most one fault other than out of memory.
pub fn one_fault()
    ensures { (text : List ℕ) → (line : ℕ) → (kind : Kind) → (other_line : ℕ) → (other_kind : Kind)
        → kind ≢ OutOfMemory
        → other_kind ≢ OutOfMemory
        → HasBoardFault text line kind → HasBoardFault text other_line other_kind
        → (line ≡ other_line) × (kind ≡ other_kind) }
{}

/// A text is that of a board or has a fault other than out of memory, and not both.
pub fn board_or_fault()
    ensures either { (text : List ℕ) → IsBoardText text ⊎ IsFaulty text }
    ensures not_both { (text : List ℕ) → IsBoardText text → IsFaulty text → ⊥ }
{}

/// The most labels and pebbles of a board. CONTRIBUTING.md lists what else says these numbers.
pub fn limits()
    ensures labels { MAX_LABELS ≡ 256 }
    ensures pebbles { MAX_PEBBLES ≡ 6 }
{}
