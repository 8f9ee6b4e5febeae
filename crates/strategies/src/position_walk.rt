//! Walks over the positions of a board by their numbers.

ghost use Rattle.std.specs.Prelude.{◌≡◌, ◌<◌, ℕ, List};
ghost use Rattle.positions.specs.Game.{moved};
ghost use Rattle.positions.specs.Value.{HasValue};
ghost use Rattle.strategies.specs.Best.{IsBestFor, IsBestRequestIfAny};
ghost use Rattle.strategies.specs.DocumentMoves.{IsAnswerable};
ghost use Rattle.strategies.specs.Inside.NumberedPositions.{IsPosition, PositionKind};
ghost use Rattle.strategies.specs.Inside.NumberedPositions.{position_number, over_kind};
ghost use Rattle.strategies.specs.Inside.Sections.{AreTaken};

use board_text::{Board, MAX_PEBBLES};
use gap_values::Best;
use positions::Value;

/// A walk over the positions of a board, each given by its number, and the best moves at the one
/// where it is.
pub(crate) trait PositionWalk: Drop {
    // The board, and what its positions are.
    ghost kind: { Self → PositionKind };

    // The places of the position where it is.
    ghost held: { Self → List ℕ };

    /// The board.
    fn board(&self) -> &Board
        ensures board { result.now ≡ (over_kind (kind self.now)).board }
        ensures position { IsPosition (over_kind (kind self.now)) (held self.now) };

    /// The places of the position.
    fn held(&self) -> &[u16]
        ensures { result.now ≡ held self.now };

    /// The number of the start's position.
    fn start(&self) -> u64
        ensures number { result ≡ position_number (over_kind (kind self.now))
            (over_kind (kind self.now)).board.start }
        ensures position { IsPosition (over_kind (kind self.now)) (held self.now) };

    /// Goes to the position of `number`.
    fn go_to(&mut self, number: u64)
        requires { (over_kind (kind self.old)).numbering.IsNumber number }
        ensures kind { kind self.new ≡ kind self.old }
        ensures held { held self.new ≡ (over_kind (kind self.old)).numbering.places number };

    /// Keeps no more best answers where it goes.
    fn end_keeping(&mut self)
        ensures kind { kind self.new ≡ kind self.old }
        ensures held { held self.new ≡ held self.old };

    /// The number of the position after `pebble` is put on `label`.
    fn after(&self, pebble: u8, label: u16) -> u64
        requires pebble { pebble < (over_kind (kind self.now)).board.pebbles }
        requires label { label < (over_kind (kind self.now)).board.labels }
        ensures { result ≡ position_number (over_kind (kind self.now)) (moved (held self.now) pebble
            label) };

    /// The number of the gap of `pebble`.
    fn gap(&self, pebble: u8) -> u64
        requires { pebble < (over_kind (kind self.now)).board.pebbles }
        ensures number { result ≡ (over_kind (kind self.now)).gap (held self.now) pebble }
        ensures position { IsPosition (over_kind (kind self.now)) (held self.now) };

    /// The best answer to a request of `pebble`, with the value of its result, if a label is legal.
    fn best_answer(&self, pebble: u8) -> Option<Best>
        requires { pebble < (over_kind (kind self.now)).board.pebbles }
        ensures { IsBestFor (over_kind (kind self.now)).board (held self.now) pebble result };

    /// The value of the position, which is 1 or more, and the labels of the best answers there, for
    /// each pebble.
    fn best_labels(&self) -> (Value, [u16; MAX_PEBBLES])
        requires { IsAnswerable (over_kind (kind self.now)).board (held self.now) }
        ensures value { HasValue (over_kind (kind self.now)).board (held self.now) result.0 }
        ensures labels { AreTaken (over_kind (kind self.now)).board (held self.now) result.1 }
        ensures position { IsPosition (over_kind (kind self.now)) (held self.now) };

    /// The value of the position, and the best request, if the value is finite.
    fn best_request(&self) -> (Value, Option<u8>)
        ensures value { HasValue (over_kind (kind self.now)).board (held self.now) result.0 }
        ensures request { IsBestRequestIfAny
            (over_kind (kind self.now)).board (held self.now) result.1 };
}
