//! The domination among labels of a nested board, by their digits.

ghost use Rattle.std.specs.Prelude.{◌≡◌, ◌+◌, ◌%◌, ◌<◌, ◌↔◌, IsTrue};
ghost use Rattle.board_text.specs.Ranges.{InRange};
ghost use Rattle.board_text.specs.PlainBoard.{AreLabels};
ghost use Rattle.nested_cycles.specs.Domination.{labels_of, NestedDominates};

use crate::game::MAX_LEVELS;

/// Whether the label `a` dominates the label `b` on the nested
/// board of level `levels`, 1 to `MAX_LEVELS`.
///
/// A label is a word of ternary digits, one fewer than there are levels,
/// and its number is that word read in base 3.
pub fn nested_beats(levels: u8, mut a: u64, mut b: u64) -> bool
    requires level { InRange 1 MAX_LEVELS levels }
    requires labels { AreLabels (labels_of levels) (a, b) }
    ensures { IsTrue result ↔ NestedDominates levels a b }
{
    for _ in 1..levels {
        // Without their last digits the words are those of a / 3 and b / 3.
        if a / 3 == b / 3 {
            return comes_next(a % 3, b % 3);
        }
        a /= 3;
        b /= 3;
    }
    false
}

/// Whether the digit `a` comes next after the digit `b` round the three-cycle.
fn comes_next(a: u64, b: u64) -> bool
    requires { b < 3 }
    ensures { IsTrue result ↔ (a ≡ (b + 1) % 3) }
{
    a == (b + 1) % 3
}
