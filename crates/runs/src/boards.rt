//! The board that a text is: of any size, or within a limit.

ghost use Rattle.std.specs.Prelude.{◌-◌, ◌≤◌, ◌↔◌, IfOk, IfErr, IsTrue};
ghost use Rattle.board_text.specs.PlainBoard.{places};
ghost use Rattle.classes.specs.Numbers.{ways};
ghost use Rattle.positions.specs.Ranks.{configurations};
ghost use Rattle.runs.specs.Texts.{HasNoBoard, HasNoneAmong, HasNoneWithin, IsBoardAmong};
ghost use Rattle.runs.specs.Texts.{IsBoardWithin, IsSmallBoard, IsWithinLimit, OfAnySize};

use crate::fault::RunFault;
use board_text::{Board, parse};
use command_line::BoardLimit;
use gap_values::{MAX_GAPS, has_few_gaps};
use positions::{MAX_CONFIGURATIONS, is_small};
use std::alloc::Global;

/// Whether `board` is within the limit.
fn is_within(limit: BoardLimit, board: &Board) -> bool
    ensures { IsTrue result ↔ IsWithinLimit limit board.now }
{
    match limit {
        BoardLimit::Small => is_small(board),
        BoardLimit::Large => has_few_gaps(board),
    }
}

/// The board whose text is `text`, with any number of configurations.
pub(crate) fn any_board(alloc: Global, text: &[u8]) -> Result<Board, RunFault>
    ensures found { IfOk result (IsBoardAmong OfAnySize text.now) }
    ensures fault { IfErr result (HasNoneAmong OfAnySize text.now) }
{
    Ok(parse(alloc, text)?)
}

/// The board whose text is `text`. It has at most `MAX_CONFIGURATIONS` configurations.
pub(crate) fn small_board(alloc: Global, text: &[u8]) -> Result<Board, RunFault>
    ensures found { IfOk result (IsSmallBoard text.now) }
    ensures few { IfOk result (λ board. configurations board ≤ MAX_CONFIGURATIONS) }
    ensures fault { IfErr result (HasNoBoard text.now) }
{
    board_within(alloc, BoardLimit::Small, text)
}

/// The board whose text is `text`. It is within the `limit`, and within either it has at most
/// `MAX_GAPS` gaps.
pub(crate) fn board_within(alloc: Global, limit: BoardLimit, text: &[u8]) -> Result<Board, RunFault>
    ensures found { IfOk result (IsBoardWithin limit text.now) }
    ensures gaps { IfOk result (λ board. ways (board.pebbles - 1) (places board) ≤ MAX_GAPS) }
    ensures fault { IfErr result (HasNoneWithin limit text.now) }
{
    let board = parse(alloc, text)?;
    if !is_within(limit, &board) {
        return Err(RunFault::TooLarge);
    }
    Ok(board)
}
