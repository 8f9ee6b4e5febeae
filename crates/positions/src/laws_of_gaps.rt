//! Laws of gaps, each the contract of a function without a body.

ghost use Rattle.std.specs.Prelude.{◌≡◌, ℕ, ◌<◌, ◌↔◌, List, slice_index};
ghost use Rattle.board_text.specs.PlainBoard.{PlainBoard, IsAntisymmetric, IsConfiguration, places};
ghost use Rattle.positions.specs.Game.{Legal, moved};
ghost use Rattle.positions.specs.declared.value.Value.{Value as ValueData};
ghost use Rattle.positions.specs.Gaps.{gaps, gap_of, pebble_of, member_of, IsAnswer, IsDominator};
ghost use Rattle.positions.specs.Tuples.{tuple_of};
ghost use Rattle.positions.specs.Value.{HasValue};

/// The gap of a pebble at a configuration is a gap of that pebble, and its members are the
/// configurations that differ in that pebble's label alone.
pub fn gaps_of_configurations()
    ensures is_gap { (board : PlainBoard) → (configuration : List ℕ) → (pebble : ℕ)
        → IsConfiguration board configuration
        → pebble < board.pebbles
        → gap_of board configuration pebble < gaps board }
    ensures pebble { (board : PlainBoard) → (configuration : List ℕ) → (pebble : ℕ)
        → IsConfiguration board configuration
        → pebble < board.pebbles
        → pebble_of board (gap_of board configuration pebble) ≡ pebble }
    ensures members { (board : PlainBoard) → (configuration : List ℕ) → (pebble : ℕ) → (label : ℕ)
        → IsConfiguration board configuration
        → pebble < board.pebbles
        → member_of board (gap_of board configuration pebble) label
        ≡ moved configuration pebble label }
    ensures own_member { (board : PlainBoard) → (configuration : List ℕ) → (pebble : ℕ)
        → IsConfiguration board configuration
        → pebble < board.pebbles
        → member_of board (gap_of board configuration pebble) (slice_index configuration pebble)
        ≡ configuration }
{}

/// A member of a gap is a configuration with the label in the place of the gap's pebble, and that
/// pebble's gap there is the gap.
pub fn members_of_gaps()
    ensures is_pebble { (board : PlainBoard) → (gap : ℕ) → gap < gaps board
        → pebble_of board gap < board.pebbles }
    ensures is_configuration { (board : PlainBoard) → (gap : ℕ) → (label : ℕ) → gap < gaps board
        → label < places board
        → IsConfiguration board (member_of board gap label) }
    ensures label { (board : PlainBoard) → (gap : ℕ) → (label : ℕ) → gap < gaps board
        → slice_index (member_of board gap label) (pebble_of board gap) ≡ label }
    ensures gap { (board : PlainBoard) → (gap : ℕ) → (label : ℕ) → gap < gaps board
        → gap_of board (member_of board gap label) (pebble_of board gap) ≡ gap }
{}

/// A label is legal at a configuration exactly if it is an answer of the gap there, and a pebble
/// dominates exactly if its own label is one.
/// No configuration is the result of answers in two gaps.
pub fn answers_of_gaps()
    ensures legal { (board : PlainBoard) → (configuration : List ℕ) → (pebble : ℕ) → (label : ℕ)
        → IsConfiguration board configuration
        → pebble < board.pebbles
        → Legal board configuration pebble label
        ↔ IsAnswer board (gap_of board configuration pebble) label }
    ensures dominator { (board : PlainBoard) → (configuration : List ℕ) → (pebble : ℕ)
        → IsConfiguration board configuration
        → pebble < board.pebbles
        → IsDominator board configuration pebble
        ↔ IsAnswer board (gap_of board configuration pebble) (slice_index configuration pebble) }
    ensures one_gap { (board : PlainBoard) → (first : ℕ) → (second : ℕ) → (one : ℕ) → (other : ℕ)
        → IsAntisymmetric board
        → first < gaps board → second < gaps board → IsAnswer board first one
        → IsAnswer board second other
        → member_of board first one ≡ member_of board second other → first ≡ second }
{}

/// Pebbles are alike: two gaps of one tuple have the same answers, and their members with the same
/// place for the gap's pebble have the same value.
pub fn pebbles_are_alike()
    ensures answers { (board : PlainBoard) → (first : ℕ) → (second : ℕ) → (label : ℕ)
        → first < gaps board → second < gaps board → tuple_of board first ≡ tuple_of board second
        → IsAnswer board first label → IsAnswer board second label }
    ensures values { (board : PlainBoard) → (first : ℕ) → (second : ℕ) → (place : ℕ)
        → (value : ValueData) → first < gaps board → second < gaps board
        → tuple_of board first ≡ tuple_of board second
        → HasValue board (member_of board first place) value
        → HasValue board (member_of board second place) value }
{}
