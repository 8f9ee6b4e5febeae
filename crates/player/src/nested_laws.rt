//! Laws of plays on nested boards, each the contract of a function without a body.

ghost use Rattle.std.specs.Prelude.{◌≡◌, ◌<◌, ◌≤◌, ℕ, List};
ghost use Rattle.board_text.specs.PlainBoard.{PlainBoard};
ghost use Rattle.nested_cycles.specs.Domination.{labels_of};
ghost use Rattle.nested_cycles.specs.NestedBoard.{IsNestedBoard};
ghost use Rattle.nested_cycles.specs.NestedGame.{other_words};
ghost use Rattle.nested_cycles.specs.Reply.{NestedReply};
ghost use Rattle.positions.specs.declared.value.Value.TheVariants.{Forever};
ghost use Rattle.positions.specs.Game.{Legal, moved};
ghost use Rattle.positions.specs.Value.{HasValue};
ghost use Rattle.player.specs.NestedPlay.{IsNestedPlay, IsGoodConfiguration};
ghost use Rattle.player.specs.Transcript.{Going, PersonClimbs, IsPlayed};

/// From good words a labeller answers any number of requests on the nested board of a level, with
/// at most as many pebbles as levels. This holds of each level, and each has such a board, though
/// few are built; a board that is built lasts for ever from its start. The nested reply is a legal
/// answer and leaves the words good, so that each configuration of
/// a play on a nested board has the value forever.
pub fn nested_boards_last_for_ever()
    ensures good { (levels : ℕ) → (board : PlainBoard) → (configuration : List ℕ)
        → IsNestedPlay levels board
        → IsGoodConfiguration levels board configuration → HasValue board configuration Forever }
    ensures replies { (levels : ℕ) → (board : PlainBoard) → (configuration : List ℕ) → (pebble : ℕ)
        → (label : ℕ)
        → IsNestedPlay levels board
        → IsGoodConfiguration levels board configuration → pebble < board.pebbles
        → label < labels_of levels
        → NestedReply levels (other_words pebble configuration) label
        → Legal board configuration pebble label
        × IsGoodConfiguration levels board (moved configuration pebble label) }
    ensures plays { (levels : ℕ) → (board : PlainBoard) → (lines : List (List ℕ)) → (text : List ℕ)
        → (at : List ℕ) → (requests : ℕ)
        → IsNestedPlay levels board
        → board.pebbles ≡ levels → IsPlayed (PersonClimbs levels) lines text (Going at requests)
        → HasValue board at Forever }
    ensures each_level { (levels : ℕ) → (pebbles : ℕ) → pebbles ≤ levels
        → (board : PlainBoard) × IsNestedPlay levels board × (board.pebbles ≡ pebbles)
        × IsGoodConfiguration levels board board.start }
    ensures built { (levels : ℕ) → (pebbles : ℕ) → (board : PlainBoard) → pebbles ≤ levels
        → IsNestedBoard levels pebbles board
        → IsNestedPlay levels board }
    ensures start { (levels : ℕ) → (pebbles : ℕ) → (board : PlainBoard) → pebbles ≤ levels
        → IsNestedBoard levels pebbles board
        → HasValue board board.start Forever }
{}
