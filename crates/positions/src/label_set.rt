//! Sets of labels, as bits.

ghost use Rattle.std.specs.Prelude.{◌≡◌, ◌⊎◌, ℕ, ◌+◌, ◌*◌, ◌<◌, ◌≤◌, ◌↔◌, true, length};
ghost use Rattle.std.specs.Prelude.{slice_index, IsTrue};
ghost use Rattle.std.specs.Int.{bit_at};
ghost use Rattle.board_text.specs.Domination.{has_bit};
ghost use Rattle.positions.specs.Counts.{HasSize, IsSmallest};

use crate::label_walk::LabelWalk;
use board_text::{MAX_LABELS, ROW_WORDS};
use std::marker::Model;

/// A set of labels below `64 * WORDS`, which are found once and then read one after the other.
///
/// Contracts see it as words of bits: the label x is bit `x % 64` of word `x / 64`.
#[derive(Clone, Copy)]
pub struct Labels<const WORDS: usize> {
    words: [u64; WORDS],
}

/// A set of labels of any board.
pub type LabelSet = Labels<ROW_WORDS>;

impl<const WORDS: usize> Model for Labels<WORDS> {
    ghost use Rattle.std.specs.Prelude.{ℕ, List};

    ghost Value = { List ℕ };

    ghost view = { λ s. s.words };

    ghost inverse = { λ words. record { words = words } };
}

impl<const WORDS: usize> Labels<WORDS> {
    /// The labels below `labels`.
    pub fn below(labels: u16) -> Labels<WORDS>
        requires { labels ≤ 64 * WORDS }
        ensures { (x : ℕ) → x < MAX_LABELS → (has_bit result x ≡ true) ↔ (x < labels) }
    {
        let whole = labels as usize / 64;
        let mut words = [0; WORDS];
        for number in 0..whole {
            words[number] = u64::MAX;
        }
        if labels % 64 > 0 {
            words[whole] = (1 << (labels % 64)) - 1;
        }
        Labels { words }
    }

    /// The labels that are both in this set and in the bits `row`.
    pub fn intersection(&self, row: &[u64]) -> Labels<WORDS>
        requires { WORDS ≤ length row.now }
        ensures { (x : ℕ) → x < MAX_LABELS → (has_bit result x ≡ true)
            ↔ ((has_bit self.now x ≡ true) × (has_bit row.now x ≡ true)) }
    {
        let mut words = self.words;
        for number in 0..WORDS {
            words[number] &= row[number];
        }
        Labels { words }
    }

    /// The labels of this set that are not in `other`.
    pub fn without(&self, other: &Labels<WORDS>) -> Labels<WORDS>
        ensures { (x : ℕ) → x < MAX_LABELS → (has_bit result x ≡ true)
            ↔ ((has_bit self.now x ≡ true) × (has_bit other.now x ≡ true → ⊥)) }
    {
        let mut words = self.words;
        for number in 0..WORDS {
            words[number] &= !other.words[number];
        }
        Labels { words }
    }

    /// The labels of this set and those of `other`.
    pub fn union(&self, other: &Labels<WORDS>) -> Labels<WORDS>
        ensures { (x : ℕ) → x < MAX_LABELS → (has_bit result x ≡ true)
            ↔ ((has_bit self.now x ≡ true) ⊎ (has_bit other.now x ≡ true)) }
    {
        let mut words = self.words;
        for number in 0..WORDS {
            words[number] |= other.words[number];
        }
        Labels { words }
    }

    /// The labels of this set, and `label`.
    pub fn with(&self, label: u16) -> Labels<WORDS>
        requires { label < 64 * WORDS }
        ensures { (x : ℕ) → x < MAX_LABELS
            → (has_bit result x ≡ true) ↔ ((x ≡ label) ⊎ (has_bit self.now x ≡ true)) }
    {
        let mut words = self.words;
        words[label as usize / 64] |= 1 << (label % 64);
        Labels { words }
    }

    /// Whether no label is in the set.
    pub fn is_empty(&self) -> bool
        requires { WORDS ≤ ROW_WORDS }
        ensures { IsTrue result ↔ ((x : ℕ) → x < MAX_LABELS → has_bit self.now x ≡ true → ⊥) }
    {
        for number in 0..WORDS {
            if self.words[number] != 0 {
                return false;
            }
        }
        true
    }

    /// Whether `label` is in the set.
    pub fn contains(&self, label: u16) -> bool
        requires { label < 64 * WORDS }
        ensures { result ≡ has_bit self.now label }
    {
        let word = self.words[label as usize / 64];
        (word >> (label % 64)) & 1 == 1
    }

    /// How many labels are in the set.
    pub fn len(&self) -> u32
        requires { WORDS ≤ ROW_WORDS }
        ensures { HasSize (λ x. (x < MAX_LABELS) × (has_bit self.now x ≡ true)) result }
    {
        let mut count = 0;
        for word in &self.words {
            count += word.count_ones();
        }
        count
    }
}

impl LabelSet {
    /// The labels whose bits are set in `words`.
    pub(crate) fn new(words: [u64; ROW_WORDS]) -> LabelSet
        ensures { result ≡ words }
    {
        Labels { words }
    }

    /// The bits of the labels from `64 * number` on.
    pub(crate) fn word(self, number: usize) -> u64
        requires { number < ROW_WORDS }
        ensures { result ≡ slice_index self number }
    {
        self.words[number]
    }

    /// A walk over the labels.
    pub fn walk(&self) -> LabelWalk
        ensures { result ≡ record { left = self.now; from = 0 } }
    {
        LabelWalk::new(self.words)
    }

    /// The smallest label of the set that is at least `bound`, if there is one.
    pub(crate) fn first_from(&self, bound: u16) -> Option<u16>
        ensures { IsSmallest (λ x. (bound ≤ x) × (x < MAX_LABELS)
            × (has_bit self.now x ≡ true)) result }
    {
        let bound = bound as usize;
        // Each word has its own step, so that the words can be kept in registers.
        for number in 0..ROW_WORDS {
            if bound < 64 * number + 64 {
                let word = self.words[number] & bits_from(bound, number);
                if word != 0 {
                    return Some((64 * number) as u16 + word.trailing_zeros() as u16);
                }
            }
        }
        None
    }
}

/// A mask of the bits of word `number` whose labels are at least `bound`.
fn bits_from(bound: usize, number: usize) -> u64
    requires word { number < ROW_WORDS }
    requires bound { bound < 64 * number + 64 }
    ensures { (bit : ℕ) → bit < 64 → (bit_at result bit ≡ 1) ↔ (bound ≤ 64 * number + bit) }
{
    if bound <= 64 * number {
        u64::MAX
    } else {
        u64::MAX << (bound % 64)
    }
}
