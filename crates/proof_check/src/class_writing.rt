//! Classes as they are written.

ghost use Rattle.std.specs.Prelude.{◌≡◌, ◌++◌, OnOk, string_bytes};
ghost use Rattle.board_text.specs.PlaceForms.{spaced_places};
ghost use Rattle.proof_text.specs.Arranged.{arranged_at};
ghost use Rattle.proof_check.specs.ClassFaults.{IsOrderNumber};

use board_text::{Board, write_places};
use proof_text::places_at;
use std::alloc::AllocError;

/// Appends the places of the class whose number in the order of documents is `number` to `text`,
/// each with a space before it: a label, or a hyphen for none.
pub fn write_class(text: &mut String, board: &Board, number: u64) -> Result<(), AllocError>
    requires { IsOrderNumber board.now number }
    ensures { OnOk result (string_bytes text.new ≡ string_bytes text.old
        ++ spaced_places board.now.labels (arranged_at board.now number)) }
{
    let places = places_at(board, number);
    write_places(text, board.labels(), &places[..board.pebbles() as usize])
}
