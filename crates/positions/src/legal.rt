//! The legal labels at a configuration given by its places.

ghost use Rattle.std.specs.Prelude.{◌≡◌, ℕ, ◌<◌, ◌↔◌, true};
ghost use Rattle.board_text.specs.Domination.{has_bit};
ghost use Rattle.board_text.specs.PlainBoard.{IsConfiguration};
ghost use Rattle.positions.specs.Game.{Legal};

use crate::label_set::LabelSet;
use board_text::{Board, MAX_LABELS};

/// The labels that a request of `pebble` may be answered with at `configuration`.
pub fn legal_labels(board: &Board, configuration: &[u16], pebble: u8) -> LabelSet
    requires { IsConfiguration board.now configuration.now }
    ensures { (label : ℕ) → label < MAX_LABELS
        → (has_bit result label ≡ true) ↔ Legal board.now configuration.now pebble label }
{
    let mut legal = LabelSet::below(board.labels());
    for other in 0..board.pebbles() {
        let held = configuration[other as usize];
        if other != pebble && held < board.labels() {
            legal = legal.intersection(board.dominators(held));
        }
    }
    legal
}
