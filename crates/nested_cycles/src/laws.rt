//! Laws of nested boards, each the contract of a function without a body.

ghost use Rattle.std.specs.Prelude.{◌≡◌, ◌≢◌, ℕ, ◌+◌, ◌*◌, ◌%◌, ◌^◌, ◌<◌, ◌↔◌, ◌⊎◌, List, ◌∷◌};
ghost use Rattle.std.specs.Prelude.{length};
ghost use Rattle.board_text.specs.PlainBoard.{PlainBoard, AreLabels, IsAntisymmetric};
ghost use Rattle.nested_cycles.specs.Words.{IsWord, word_number, word_of};
ghost use Rattle.nested_cycles.specs.Domination.{WordDominates, labels_of, NestedDominates};
ghost use Rattle.nested_cycles.specs.NestedBoard.{IsNestedBoard};
ghost use Rattle.nested_cycles.specs.Reply.{IsReply, NestedReply};

use crate::game::MAX_LEVELS;
use crate::nested_boards::MAX_BOARD_LEVELS;

/// Words and numbers belong to each other, one to one.
pub fn words_and_numbers()
    ensures number { (count : ℕ) → (number : ℕ) → number < 3 ^ count
        → word_number (word_of count number) ≡ number }
    ensures word { (count : ℕ) → (word : List ℕ) → IsWord count word
        → word_of count (word_number word) ≡ word }
    ensures is_number { (count : ℕ) → (word : List ℕ) → IsWord count word
        → word_number word < 3 ^ count }
    ensures is_word { (count : ℕ) → (number : ℕ) → number < 3 ^ count
        → IsWord count (word_of count number) }
{}

/// The first digit of a label is its copy: in one copy the rest of the words decides, and of two
/// copies the one dominates the other as in the three-cycle.
pub fn copies_in_a_cycle()
    ensures one_copy { (digit : ℕ) → (word : List ℕ) → (other : List ℕ)
        → WordDominates (digit ∷ word) (digit ∷ other) ↔ WordDominates word other }
    ensures two_copies { (digit : ℕ) → (other_digit : ℕ) → (word : List ℕ) → (other : List ℕ)
        → digit ≢ other_digit
        → WordDominates (digit ∷ word) (other_digit ∷ other) ↔ (digit ≡ (other_digit + 1) % 3) }
{}

/// No label dominates itself, and no two labels dominate each other, at any level.
pub fn no_two_ways()
    ensures itself { (word : List ℕ) → WordDominates word word → ⊥ }
    ensures each_other { (word : List ℕ) → (other : List ℕ) → WordDominates word other
        → WordDominates other word → ⊥ }
    ensures board { (levels : ℕ) → (pebbles : ℕ) → (board : PlainBoard)
        → IsNestedBoard levels pebbles board → IsAntisymmetric board }
{}

/// Of two labels one dominates the other, at any level.
pub fn one_of_two()
    ensures words { (count : ℕ) → (word : List ℕ) → (other : List ℕ) → IsWord count word
        → IsWord count other → word ≢ other
        → WordDominates word other ⊎ WordDominates other word }
    ensures labels { (levels : ℕ) → (x : ℕ) → (y : ℕ) → AreLabels (labels_of levels) (x, y) → x ≢ y
        → NestedDominates levels x y ⊎ NestedDominates levels y x }
{}

/// A nested board of n labels has n * (n - 1) / 2 pairs: half of all pairs of different labels.
#[tactic(auto, using(crate::proofs::PairCounts::count_of_pairs))]
pub fn half_of_all_pairs()
    ensures { (levels : ℕ) → (pebbles : ℕ) → (board : PlainBoard)
        → IsNestedBoard levels pebbles board
        → 2 * length board.pairs + board.labels ≡ board.labels * board.labels }
{}

/// A level and a number of pebbles have at most one nested board.
#[tactic(auto, using(crate::proofs::NestedBoards::one_nested_board))]
pub fn one_nested_board()
    ensures { (levels : ℕ) → (pebbles : ℕ) → (first : PlainBoard) → (second : PlainBoard)
        → IsNestedBoard levels pebbles first → IsNestedBoard levels pebbles second
        → first ≡ second }
{}

/// Words have one reply at most.
pub fn one_reply()
    ensures words { (count : ℕ) → (others : List (List ℕ)) → (reply : List ℕ) → (second : List ℕ)
        → IsReply count others reply → IsReply count others second → reply ≡ second }
    ensures labels { (levels : ℕ) → (others : List ℕ) → (reply : ℕ) → (second : ℕ)
        → reply < labels_of levels → second < labels_of levels
        → NestedReply levels others reply → NestedReply levels others second → reply ≡ second }
{}

/// The highest levels of a nested board that is built, and of one on which requests are answered.
/// CONTRIBUTING.md lists what else says these numbers.
pub fn limits()
    ensures boards { MAX_BOARD_LEVELS ≡ 6 }
    ensures games { MAX_LEVELS ≡ 24 }
{}
