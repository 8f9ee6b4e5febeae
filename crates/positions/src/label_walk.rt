//! A walk over the labels of a set.

ghost use Rattle.std.specs.Prelude.{◌≡◌, ℕ, ◌<◌, true, MatchOption};
ghost use Rattle.board_text.specs.Domination.{has_bit};
ghost use Rattle.positions.specs.LabelWalk.{TakesSmallest};

use board_text::{MAX_LABELS, ROW_WORDS};
use std::marker::Model;

/// A walk over the labels of a set, in ascending order.
///
/// Contracts see the remaining labels as a bit set, and a lower bound of them.
#[derive(Drop)]
pub struct LabelWalk {
    words: [u64; ROW_WORDS],
    /// The number of the word that the walk is at.
    number: usize,
    /// The remaining bits of that word, which replace those in `words`, where a word that changes
    /// would not stay in a register.
    word: u64,
    /// 0 only if all words after the first are 0.
    later: u64,
    from: u16,
}

impl Model for LabelWalk {
    ghost use Rattle.std.specs.Prelude.{slice_set};
    ghost use Rattle.positions.specs.LabelWalk.{Walk};
    ghost use Rattle.positions.specs.Inside.LabelWalk.{IsAtWord};

    ghost Value = { Walk };

    ghost view = { λ w. record { left = slice_set w.words w.number w.word; from = w.from } };

    ghost invariant = { λ w. IsAtWord w.words w.number w.word w.later };
}

impl LabelWalk {
    /// A walk over the labels whose bits are set in `words`.
    pub(crate) fn new(words: [u64; ROW_WORDS]) -> LabelWalk
        ensures { result ≡ record { left = words; from = 0 } }
    {
        LabelWalk {
            words,
            number: 0,
            word: words[0],
            later: words[1] | words[2] | words[3],
            from: 0,
        }
    }

    /// The next label, if one is left.
    pub fn take_next(&mut self) -> Option<u16>
        ensures { MatchOption result ((label : ℕ) → label < MAX_LABELS
            → has_bit self.old.left label ≡ true → ⊥)
            (TakesSmallest self.old self.new) }
    {
        while self.word == 0 {
            if self.later == 0 || self.number + 1 == ROW_WORDS {
                return None;
            }
            self.words[self.number] = 0;
            self.number += 1;
            self.word = self.words[self.number];
        }
        let label = (64 * self.number) as u16 + self.word.trailing_zeros() as u16;
        self.word &= self.word - 1;
        self.from = label + 1;
        Some(label)
    }
}
