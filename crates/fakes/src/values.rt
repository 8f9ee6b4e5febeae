//! Values of configurations by the slow program.

ghost use Rattle.std.specs.Prelude.{◌<◌, ◌↔◌, IfSome, IsTrue};
ghost use Rattle.board_text.specs.PlainBoard.{IsConfiguration};
ghost use Rattle.positions.specs.Value.{HasValue};

use board_text::Board;
use positions::{MAX_CONFIGURATIONS, Value, value_of};

/// Whether the list has a place for each pebble.
pub fn is_configuration(board: &Board, configuration: &[u16]) -> bool
    ensures { IsTrue result ↔ IsConfiguration board.now configuration.now }
{
    let places = board.places();
    configuration.len() == usize::from(board.pebbles())
        && configuration.iter().all(|place| *place < places)
}

/// The value of a configuration by the slow program, if it is one and the board isn't too large.
pub fn value_at(board: &Board, configuration: &mut [u16]) -> Option<Value>
    ensures { IfSome result (HasValue board.now configuration.old) }
{
    let count = u32::from(board.places()).checked_pow(u32::from(board.pebbles()))?;
    if count > MAX_CONFIGURATIONS || !is_configuration(board, configuration) {
        return None;
    }
    Some(value_of(board, configuration))
}
