//! Good words, and the word that answers a request, without a search.

ghost use Rattle.std.specs.Prelude.{◌≡◌, ◌<◌, ◌≤◌, ◌↔◌, ℕ, List, ◌∷◌, ◌++◌, length, All, IsTrue};
ghost use Rattle.board_text.specs.Ranges.{InRange};
ghost use Rattle.nested_cycles.specs.Domination.{labels_of, NestedDominates};
ghost use Rattle.nested_cycles.specs.GoodWords.{NestedGood};
ghost use Rattle.nested_cycles.specs.Reply.{NestedReply};

use crate::copies::{Copies, copies_of, copy_size, next_after, rests_of};
use crate::game::MAX_LEVELS;

/// Whether `words`, at most `levels` of them, are good on the nested board of this level, 1 to
/// `MAX_LEVELS`: pebbles on them can be moved for ever, in whatever order they are asked for.
///
/// A word is given by its number, as in [`nested_beats`](crate::nested_beats).
pub fn nested_good(levels: u8, words: &[u64]) -> bool
    requires level { InRange 1 MAX_LEVELS levels }
    requires few { length words.now ≤ levels }
    requires labels { All (λ word. word < labels_of levels) words.now }
    ensures { IsTrue result ↔ NestedGood levels words.now }
{
    if levels == 1 {
        return true;
    }
    let size = copy_size(levels);
    match copies_of(words, size) {
        Copies::Empty => true,
        Copies::One(_) => true,
        Copies::Two(digit) => {
            let rests = rests_of(words, size, next_after(digit));
            nested_good(levels - 1, rests.as_slice())
        }
        Copies::Three => false,
    }
}

/// The word for a requested pebble, if the other pebbles are on the good words `others`, fewer than
/// `levels`.
///
/// If the others are in one copy, it is the first label of the copy that comes next.
/// If they are in two, it is within the one that comes next, and answers the words there.
pub fn nested_reply(levels: u8, others: &[u64]) -> u64
    requires level { InRange 1 MAX_LEVELS levels }
    requires few { length others.now < levels }
    requires labels { All (λ other. other < labels_of levels) others.now }
    requires good { NestedGood levels others.now }
    ensures label { result < labels_of levels }
    ensures reply { NestedReply levels others.now result }
    ensures dominates { All (λ other. NestedDominates levels result other) others.now }
    ensures good { (before : List ℕ) → (after : List ℕ) → others.now ≡ before ++ after
        → NestedGood levels (before ++ result ∷ after) }
{
    if levels == 1 {
        return 0;
    }
    let size = copy_size(levels);
    match copies_of(others, size) {
        Copies::Empty => 0,
        Copies::One(digit) => next_after(digit) * size,
        Copies::Two(digit) => {
            let next = next_after(digit);
            let rests = rests_of(others, size, next);
            next * size + nested_reply(levels - 1, rests.as_slice())
        }
        Copies::Three => unreachable!(),
    }
}
