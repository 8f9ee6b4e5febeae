//! The best answer and the best request at a configuration of a board, by its rank.

ghost use Rattle.std.specs.Prelude.{◌≡◌, ◌<◌};
ghost use Rattle.positions.specs.Ranks.{configurations, configuration_at};
ghost use Rattle.strategies.specs.Best.{IsBestAnswerIfAny, IsBestRequestIfAny};

use crate::gap_moves::GapMoves;
use board_text::Board;
use classes::Places;
use solver::Values;

/// The best answer to a request of `pebble` at the configuration of `rank`, if a label is legal:
/// the smallest legal label whose result has the greatest value.
///
/// The `values` are those of `board`.
pub fn best_answer(board: &Board, values: &Values, rank: u32, pebble: u8) -> Option<u16>
    requires same_board { values.now ≡ board.now }
    requires rank { rank < configurations board.now }
    requires pebble { pebble < board.now.pebbles }
    ensures { IsBestAnswerIfAny board.now (configuration_at board.now rank) pebble result }
{
    let moves = GapMoves::new(board, values);
    let held = Places::at(values.space(), rank);
    moves.answer(held.as_slice(), pebble)
}

/// The best request at the configuration of `rank`, if its value is finite:
/// the smallest pebble all of whose legal results have a smaller value.
///
/// The `values` are those of `board`.
pub fn best_request(board: &Board, values: &Values, rank: u32) -> Option<u8>
    requires same_board { values.now ≡ board.now }
    requires rank { rank < configurations board.now }
    ensures { IsBestRequestIfAny board.now (configuration_at board.now rank) result }
{
    let moves = GapMoves::new(board, values);
    let held = Places::at(values.space(), rank);
    let (_, request) = moves.request(held.as_slice());
    request
}
