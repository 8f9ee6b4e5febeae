//! Laws of plays, each the contract of a function without a body.

ghost use Rattle.std.specs.Prelude.{◌≡◌, ℕ, List};
ghost use Rattle.board_text.specs.PlainBoard.{PlainBoard, IsConfiguration};
ghost use Rattle.positions.specs.declared.value.Value.TheVariants.{Finite};
ghost use Rattle.positions.specs.Value.{HasValue};
ghost use Rattle.player.specs.Laws.{IsGame, IsWithinValue, IsNoSooner, IsNoLater, IsStopped};
ghost use Rattle.player.specs.Laws.{EndsBestPlay};
ghost use Rattle.player.specs.Transcript.{Game, Going, PersonAsks, PersonAnswers, PersonClimbs};
ghost use Rattle.player.specs.Transcript.{IsPlayed, IsTranscript};
ghost use Rattle.player.specs.declared.end.PlayEnd.{PlayEnd as PlayEndData};

use crate::lines::MOST_BYTES;
use crate::prompts::MOST_LISTED;
use crate::turns::MOST_LINES;

/// Against a person who is the adversary the labeller's side is stuck only after as many answered
/// requests as the start's value, and never if that is forever. A person who is the labeller
/// answers at most that many, and there is no strategy against the person exactly if the value is
/// forever. On a nested board no one is ever stuck.
pub fn plays_last_by_the_value()
    ensures asking { (board : PlainBoard) → (lines : List (List ℕ)) → (text : List ℕ)
        → (end : PlayEndData)
        → IsTranscript (PersonAsks board) lines text end → IsNoSooner board end }
    ensures answering { (board : PlainBoard) → (lines : List (List ℕ)) → (text : List ℕ)
        → (end : PlayEndData)
        → IsTranscript (PersonAnswers board) lines text end → IsNoLater board end }
    ensures going { (board : PlainBoard) → (lines : List (List ℕ)) → (text : List ℕ) → (at : List ℕ)
        → (requests : ℕ)
        → IsPlayed (PersonAnswers board) lines text (Going at requests)
        → IsWithinValue board requests }
    ensures climbing { (levels : ℕ) → (lines : List (List ℕ)) → (text : List ℕ)
        → (end : PlayEndData)
        → IsTranscript (PersonClimbs levels) lines text end → IsStopped end }
{}

/// Any lines have one transcript and one end, in each play on a board and on a nested board.
pub fn one_transcript()
    ensures some { (game : Game) → (lines : List (List ℕ)) → IsGame game
        → (text : List ℕ) × (end : PlayEndData) × IsTranscript game lines text end }
    ensures one { (game : Game) → (lines : List (List ℕ)) → (first : List ℕ) → (second : List ℕ)
        → (end : PlayEndData) → (other : PlayEndData) → IsGame game
        → IsTranscript game lines first end → IsTranscript game lines second other
        → (first ≡ second) × (end ≡ other) }
{}

/// Best requests and best answers end a play after exactly as
/// many answers as the value, if that is finite.
pub fn best_play_ends_by_the_value()
    ensures ends { (board : PlainBoard) → (configuration : List ℕ) → (number : ℕ)
        → IsConfiguration board configuration
        → HasValue board configuration (Finite number) → EndsBestPlay board configuration number }
    ensures exactly { (board : PlainBoard) → (configuration : List ℕ) → (number : ℕ) → (other : ℕ)
        → HasValue board configuration (Finite number) → EndsBestPlay board configuration other
        → other ≡ number }
{}

/// The most lines that a play reads, 1,000,000, the most bytes of a line before its line feed, 64,
/// and the most labels that a person is told one by one, 20. CONTRIBUTING.md lists what else says
/// these numbers.
pub fn limits()
    ensures lines { MOST_LINES ≡ 1000000 }
    ensures bytes { MOST_BYTES ≡ 64 }
    ensures labels { MOST_LISTED ≡ 20 }
{}
