//! The values of a board within the limit of configurations, by their ranks.

ghost use Rattle.std.specs.Prelude.{◌≡◌, ◌≢◌, ◌↔◌, ◌<◌, ◌≤◌, ℕ, IsTrue, length, slice_index};
ghost use Rattle.std.specs.Prelude.{vec_capacity};
ghost use Rattle.board_text.specs.PlainBoard.{IsBoard, places};
ghost use Rattle.graphs.specs.Numbered.{Ordered, numbered};
ghost use Rattle.positions.specs.Counts.{IsSmallest};
ghost use Rattle.positions.specs.Gaps.{gaps, member_of, IsAnswer};
ghost use Rattle.positions.specs.Laws.{Occurs};
ghost use Rattle.positions.specs.Ranks.{configurations, configuration_at};
ghost use Rattle.positions.specs.Value.{HasValue};
ghost use Rattle.positions.specs.declared.space.TheConstants.{MAX_CONFIGURATIONS};
ghost use Rattle.positions.specs.declared.value.Value.TheVariants.{Finite, Forever};
ghost use Rattle.solver.specs.LabelSets.{IsInSet};
ghost use Rattle.solver.specs.SafeAnswers.{IsSafeAnswer};
ghost use Rattle.solver.specs.Sizes.{HasCount, IsGreatest};
ghost use Rattle.solver.specs.Words.{AreValueWords};

use crate::sizes::{count_words, zeros};
use board_text::Board;
use classes::Places;
use gap_values::{OPEN, ValueTable, value_with};
use graphs::{ByRanks, Numbering};
use positions::{LabelSet, Space, Value};
use std::marker::Model;

/// The value of each configuration of a board, which has at most `MAX_CONFIGURATIONS`, by its rank.
///
/// It holds no board: contracts see it as the board.
#[derive(Drop)]
pub struct Values {
    numbers: ByRanks,
    /// The value of the configuration of each rank, or `OPEN` for Forever.
    words: Vec<u32>,
    /// How many configurations have each finite value. None has one beyond these.
    sizes: Vec<u32>,
    /// How many configurations have the value Forever.
    forever: u32,
}

impl Model for Values {
    ghost use Rattle.board_text.specs.PlainBoard.{PlainBoard};
    ghost use Rattle.solver.specs.Inside.Values.{AreRankValues};

    ghost Value = { PlainBoard };

    ghost view = { λ s. s.numbers };

    ghost invariant = { λ s. AreRankValues s.numbers s.words.items s.sizes.items s.forever };
}

impl Values {
    /// The values of the board of `numbers`, in `words`: each below `bound`, or `OPEN` for Forever.
    /// There is `room` for as many numbers.
    pub(crate) fn new(numbers: ByRanks, words: Vec<u32>, bound: u32, room: Vec<u32>) -> Values
        requires is_board { IsBoard numbers }
        requires few { configurations numbers ≤ MAX_CONFIGURATIONS }
        requires words { AreValueWords (numbered numbers Ordered) words.items }
        requires inside { (x : ℕ) → x < length words.items → slice_index words.items x ≢ OPEN
            → slice_index words.items x < bound }
        requires room { bound ≤ vec_capacity room }
        ensures { result ≡ numbers }
    {
        let mut sizes = zeros(room, bound);
        let forever = count_words(&mut sizes, &words);
        Values {
            numbers,
            words,
            sizes,
            forever,
        }
    }

    /// The value of the configuration of `rank`.
    pub fn of(&self, rank: u32) -> Value
        requires { rank < configurations self.now }
        ensures { HasValue self.now (configuration_at self.now rank) result }
    {
        value_with(self.words[rank as usize])
    }

    /// The number of configurations that have the value `value`.
    pub fn count(&self, value: Value) -> u32
        ensures { HasCount self.now value result }
    {
        match value {
            Value::Finite(number) => self.count_finite(number),
            Value::Forever => self.forever,
        }
    }

    /// The number of configurations that have the finite value `number`.
    fn count_finite(&self, number: u32) -> u32
        ensures { HasCount self.now (Finite number) result }
    {
        if number as usize >= self.sizes.len() {
            return 0;
        }
        self.sizes[number as usize]
    }

    /// The greatest finite value of a configuration, if one has a finite value.
    pub fn greatest_finite(&self) -> Option<u32>
        ensures { IsGreatest (Occurs self.now) result }
    {
        for value in (0..self.sizes.len()).rev() {
            if self.sizes[value] > 0 {
                return Some(value as u32);
            }
        }
        None
    }

    /// The smallest answer of `gap` after which a labeller lasts forever, if there is one.
    pub fn safe_answer(&self, gap: u32) -> Option<u16>
        requires { gap < gaps self.now }
        ensures { IsSmallest (IsSafeAnswer self.now gap) result }
    {
        let mut labels = self.answers(gap).walk();
        while let Some(label) = labels.take_next() {
            if self.lasts_forever(gap, label) {
                return Some(label);
            }
        }
        None
    }

    /// The answers of `gap`.
    fn answers(&self, gap: u32) -> LabelSet
        requires { gap < gaps self.now }
        ensures answers { (label : ℕ) → IsInSet result label ↔ IsAnswer self.now gap label }
        ensures is_board { IsBoard self.now }
    {
        self.numbers.answers(gap)
    }

    /// Whether a labeller lasts forever at the member of `gap` with `place`.
    fn lasts_forever(&self, gap: u32, place: u16) -> bool
        requires gap { gap < gaps self.now }
        requires place { place < places self.now }
        ensures { IsTrue result ↔ HasValue self.now (member_of self.now gap place) Forever }
    {
        self.words[self.space().member(gap, place) as usize] == OPEN
    }

    /// The space of the board.
    pub fn space(&self) -> &Space
        ensures value { result.now ≡ self.now }
        ensures is_board { IsBoard self.now }
        ensures few { configurations self.now ≤ MAX_CONFIGURATIONS }
    {
        self.numbers.space()
    }
}

impl ValueTable for Values {
    ghost table_board = { λ values. values };

    fn value(&self, held: &[u16]) -> Value {
        self.of(self.space().rank(held))
    }

    fn word_after(&self, _board: &Board, gap: &[u16], label: u16) -> u32 {
        let Values { numbers, words, .. } = self;
        let mut class = Places::arranged(gap);
        class.arrange(label);
        words[numbers.space().rank(class.as_slice()) as usize]
    }

    /// Nothing is known of the results of a gap before each is looked up.
    fn greatest_word(&self, _board: &Board, _gap: &[u16]) -> u32 {
        OPEN
    }
}
