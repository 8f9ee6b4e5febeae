//! The rule of kept properties, used by hand on the residues modulo seven.

ghost use Rattle.std.specs.Prelude.{◌≡◌, List, ℕ, [], ◌∷◌};
ghost use Rattle.board_text.specs.PlainBoard.{PlainBoard};
ghost use Rattle.positions.specs.Value.{HasValue};
ghost use Rattle.positions.specs.declared.value.Value.TheVariants.{Forever};
ghost use Rattle.domains.specs.Circles.{IsCircle};
ghost use Rattle.domains.specs.Dominated.{IsHeld};

use crate::laws_of_values::{Property, kept_properties_last};

/// Each pebble holds a label.
pub struct OnLabels {}

impl Property for OnLabels {
    ghost holds = { IsHeld };
}

/// The residues modulo seven carry three processes for ever, from each start on labels: some label
/// beats any two.
pub fn three_last_on_residues()
    ensures { (board : PlainBoard) → (configuration : List ℕ) → IsCircle 7 (1 ∷ 2 ∷ 4 ∷ []) board
        → board.pebbles ≡ 3 → IsHeld board configuration → HasValue board configuration Forever }
{
    kept_properties_last::<OnLabels>();
}
