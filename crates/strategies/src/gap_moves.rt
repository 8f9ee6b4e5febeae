//! The values of a board and the best moves on it, by a table of its values.

ghost use Rattle.std.specs.Prelude.{◌≡◌, ◌<◌};
ghost use Rattle.board_text.specs.PlainBoard.{IsBoard, IsConfiguration};
ghost use Rattle.classes.specs.ClassGaps.{gap_at};
ghost use Rattle.positions.specs.Value.{HasValue};
ghost use Rattle.strategies.specs.Best.{IsBestAnswerIfAny, IsBestFor, IsBestRequestIfAny};

use board_text::Board;
use classes::Places;
use gap_values::{Best, ValueTable};
use positions::Value;
use std::marker::Model;

/// The values of a board and the best moves on it, by a table of the values. Configurations are
/// given by their places, so that the board may have more of them than there are ranks, and more
/// classes than there are numbers of 32 bits.
///
/// Contracts see the board.
#[derive(Drop)]
pub struct GapMoves<'a, V: ValueTable> {
    board: &'a Board,
    values: &'a V,
}

impl<'a, V: ValueTable> Model for GapMoves<'a, V> {
    ghost use Rattle.std.specs.Prelude.{◌≡◌};
    ghost use Rattle.board_text.specs.PlainBoard.{PlainBoard};

    ghost Value = { PlainBoard };

    ghost view = { λ m. m.board.now };

    ghost invariant = { λ m. V.table_board m.values.now ≡ m.board.now };
}

impl<'a, V: ValueTable> GapMoves<'a, V> {
    /// The best moves on `board`, whose values are `values`.
    pub fn new(board: &'a Board, values: &'a V) -> GapMoves<'a, V>
        requires same_board { V.table_board values.now ≡ board.now }
        ensures { result ≡ board.now }
    {
        GapMoves { board, values }
    }

    /// The board.
    pub fn board(&self) -> &'a Board
        ensures { result.now ≡ self.now }
    {
        self.board
    }

    /// The value of the start.
    pub(crate) fn start_value(&self) -> Value
        ensures value { HasValue self.now self.now.start result }
        ensures is_board { IsBoard self.now }
    {
        self.value(self.board.start())
    }

    /// The value of the configuration `held`.
    pub fn value(&self, held: &[u16]) -> Value
        requires { IsConfiguration self.now held.now }
        ensures { HasValue self.now held.now result }
    {
        self.values.value(held)
    }

    /// The best answer to a request of `pebble` at the configuration `held`, if a label is legal:
    /// the smallest legal label whose result has the greatest value.
    pub fn answer(&self, held: &[u16], pebble: u8) -> Option<u16>
        requires held { IsConfiguration self.now held.now }
        requires pebble { pebble < self.now.pebbles }
        ensures { IsBestAnswerIfAny self.now held.now pebble result }
    {
        let best = self.best(held, pebble)?;
        Some(best.label)
    }

    /// The best answer to a request of `pebble` at the configuration `held`, with the value of its
    /// result, if a label is legal.
    pub(crate) fn best(&self, held: &[u16], pebble: u8) -> Option<Best>
        requires held { IsConfiguration self.now held.now }
        requires pebble { pebble < self.now.pebbles }
        ensures { IsBestFor self.now held.now pebble result }
    {
        let gap = others_of(self.board, held, pebble);
        self.values.best_answer(self.board, gap.as_slice())
    }

    /// The value of the configuration `held`, and the best request there, if the value is finite:
    /// the smallest pebble all of whose legal results have a smaller value.
    pub fn request(&self, held: &[u16]) -> (Value, Option<u8>)
        requires { IsConfiguration self.now held.now }
        ensures value { HasValue self.now held.now result.0 }
        ensures request { IsBestRequestIfAny self.now held.now result.1 }
    {
        self.values.request(self.board, held)
    }
}

/// The places of all pebbles but `pebble` at the configuration `held`, greatest first.
fn others_of(board: &Board, held: &[u16], pebble: u8) -> Places
    requires held { IsConfiguration board.now held.now }
    requires pebble { pebble < board.now.pebbles }
    ensures { result ≡ gap_at held.now pebble }
{
    let mut gap = Places::none();
    for index in (0..board.pebbles()).rev() {
        if index != pebble {
            gap.arrange(held[index as usize]);
        }
    }
    gap
}
