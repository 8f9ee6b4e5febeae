//! Boards that are read, built and printed, and the text of the largest. A call that was refused
//! memory is made once more.

ghost use Rattle.std.specs.Prelude.{◌≡◌, IfErr, IfOk, string_bytes};
ghost use Rattle.board_text.specs.PlainBoard.{IsBoard, plain_board};
ghost use Rattle.board_text.specs.BoardText.{board_text};
ghost use Rattle.board_text.specs.BoardFaults.{HasBoardFault};

use board_text::{Board, BoardFault, BoardKind, Memory, parse, print};
use std::alloc::{AllocError, Global};
use std::fmt::Write;

/// The answer of `parse`, which is asked once more if it was refused memory.
pub fn read_board(alloc: Global, bytes: &[u8]) -> Result<Board, BoardFault>
    ensures found { IfOk result (λ board. IsBoard board × (bytes.now ≡ board_text board)) }
    ensures fault { IfErr result (λ fault. HasBoardFault bytes.now fault.line fault.kind) }
{
    match parse(alloc, bytes) {
        Err(
            BoardFault {
                line: 0,
                kind: BoardKind::Memory,
            },
        ) => parse(alloc, bytes),
        answer => answer,
    }
}

/// The answer of `Board::build`, which is asked once more if it was refused memory.
pub fn build_board(
    alloc: Global,
    labels: u16,
    pebbles: u8,
    start: &[u16],
    pairs: &[(u16, u16)],
) -> Result<Board, BoardFault>
    ensures { IfOk result (λ board. board ≡ plain_board labels pebbles start.now pairs.now) }
{
    match Board::build(alloc, labels, pebbles, start, pairs) {
        Err(
            BoardFault {
                line: 0,
                kind: BoardKind::Memory,
            },
        ) => Board::build(alloc, labels, pebbles, start, pairs),
        answer => answer,
    }
}

/// The answer of `print`, which is asked once more if it was refused memory.
pub fn print_board(alloc: Global, board: &Board) -> Result<String, Memory>
    ensures { IfOk result (λ text. string_bytes text ≡ board_text board.now) }
{
    match print(alloc, board) {
        Err(Memory) => print(alloc, board),
        answer => answer,
    }
}

/// The text of the board of 256 labels, each of which dominates all smaller ones. No board has a
/// longer text.
pub fn largest_text(alloc: Global) -> Result<String, AllocError> {
    write_largest(alloc).or_else(|_| write_largest(alloc))
}

fn write_largest(alloc: Global) -> Result<String, AllocError> {
    let mut text = String::from_str(
        alloc,
        "board 1\nlabels 256\npebbles 6\nstart 255 128 100 64 9 0\n",
    )?;
    for above in 0..256u16 {
        for below in 0..above {
            writeln!(text, "beats {above} {below}")?;
        }
    }
    text.push_str("end\n")?;
    Ok(text)
}
