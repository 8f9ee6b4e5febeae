//! Nested boards.

ghost use Rattle.std.specs.Prelude.{IfOk};
ghost use Rattle.board_text.specs.Ranges.{InRange};
ghost use Rattle.nested_cycles.specs.NestedBoard.{IsNestedBoard};

use board_text::{Board, Memory};
use nested_cycles::nested_board;
use std::alloc::Global;

/// The answer of `nested_board`, which is asked once more if it was refused memory.
pub fn make_nested(alloc: Global, levels: u8, pebbles: u8) -> Result<Board, Memory>
    requires levels { InRange 1 6 levels }
    requires pebbles { InRange 1 6 pebbles }
    ensures { IfOk result (λ board. IsNestedBoard levels pebbles board) }
{
    match nested_board(alloc, levels, pebbles) {
        Err(Memory) => nested_board(alloc, levels, pebbles),
        answer => answer,
    }
}
