//! Writing a board's text.

ghost use Rattle.std.specs.Prelude.{◌≡◌, ◌++◌, IfOk, OnOk, string_bytes};
ghost use Rattle.board_text.specs.BoardText.{board_text};
ghost use Rattle.board_text.specs.Inside.BoardText.{board_head};

use crate::board::{Board, MAX_PEBBLES};
use crate::memory::Memory;
use crate::writing::write_places;
use std::alloc::{AllocError, Global};
use std::fmt::Write;

/// An upper bound on the bytes of all lines except the pairs, of which each place takes four.
const SIZE_OF_FRAME: usize = 40 + 4 * MAX_PEBBLES;

/// The text of `board`.
pub fn print(alloc: Global, board: &Board) -> Result<String, Memory>
    ensures { IfOk result (λ text. string_bytes text ≡ board_text board.now) }
{
    let size = board.beats.size_of_lines().saturating_add(SIZE_OF_FRAME);
    let mut text = String::with_capacity(alloc, size)?;
    write_head(&mut text, board)?;
    board.beats.write_lines(&mut text)?;
    text.push_str("end\n")?;
    Ok(text)
}

/// Appends the first four lines of the text of `board` to `text`.
fn write_head(text: &mut String, board: &Board) -> Result<(), AllocError>
    ensures { OnOk result (string_bytes text.new ≡ string_bytes text.old
        ++ board_head board.now.labels board.now.pebbles board.now.start) }
{
    let version = board.version();
    let labels = board.labels();
    let pebbles = board.pebbles();
    write!(
        text,
        "board {version}\nlabels {labels}\npebbles {pebbles}\nstart"
    )?;
    write_places(text, labels, board.start())?;
    text.push_str("\n")
}
