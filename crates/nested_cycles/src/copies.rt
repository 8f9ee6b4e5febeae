//! The copies of the board of one level less that words are in, and the rests of the words there.

ghost use Rattle.std.specs.Prelude.{◌≡◌, ◌+◌, ◌-◌, ◌/◌, ◌%◌, ◌<◌, ◌≤◌, ◌↔◌, ◌==◌, ℕ, List, [], ◌∷◌};
ghost use Rattle.std.specs.Prelude.{◌++◌, length, map, take, All};
ghost use Rattle.std.specs.Prelude.{Contains, IsTrue};
ghost use Rattle.std.specs.List.{filter};
ghost use Rattle.board_text.specs.Ranges.{InRange};
ghost use Rattle.nested_cycles.specs.Domination.{labels_of};
ghost use Rattle.nested_cycles.specs.Copies.{AreCopies};
ghost use Rattle.nested_cycles.specs.GoodWords.{next_digit};
ghost use Rattle.nested_cycles.specs.declared.game.TheConstants.{MAX_LEVELS};

use crate::game::MAX_LEVELS;
use std::marker::Model;

/// The copies that words are in. Of two copies the other comes next after the one that is named.
pub enum Copies {
    Empty,
    One(u64),
    Two(u64),
    Three,
}

/// The copies that `words` are in, if each copy has `size` labels.
pub fn copies_of(words: &[u64], size: u64) -> Copies
    requires size { 0 < size }
    requires labels { All (λ word. word / size < 3) words.now }
    ensures { AreCopies result (map (λ word. word / size) words.now) }
{
    match (
        has_word_in(words, size, 0),
        has_word_in(words, size, 1),
        has_word_in(words, size, 2),
    ) {
        (false, false, false) => Copies::Empty,
        (true, false, false) => Copies::One(0),
        (false, true, false) => Copies::One(1),
        (false, false, true) => Copies::One(2),
        (true, true, false) => Copies::Two(0),
        (false, true, true) => Copies::Two(1),
        (true, false, true) => Copies::Two(2),
        (true, true, true) => Copies::Three,
    }
}

/// Whether one of `words` is in the copy `digit`.
fn has_word_in(words: &[u64], size: u64, digit: u64) -> bool
    requires { 0 < size }
    ensures { IsTrue result ↔ Contains (map (λ word. word / size) words.now) digit }
{
    words.iter().any(|word| *word / size == digit)
}

/// The number of labels of each copy in the nested board of level `levels`.
pub fn copy_size(levels: u8) -> u64
    requires { InRange 2 MAX_LEVELS levels }
    ensures { result ≡ labels_of (levels - 1) }
{
    3_u64.pow(u32::from(levels) - 2)
}

/// The digit that comes next after `digit` round the three-cycle.
pub fn next_after(digit: u64) -> u64
    requires { digit < 3 }
    ensures { result ≡ next_digit digit }
{
    (digit + 1) % 3
}

/// Those of `words` that are in the copy `digit`, without their first digit.
pub fn rests_of(words: &[u64], size: u64, digit: u64) -> Words
    requires size { 0 < size }
    requires room { length words.now ≤ MAX_LEVELS }
    ensures { result ≡ map (λ word. word % size) (filter (λ word. word / size == digit) words.now) }
{
    let mut rests = Words::new();
    for word in words {
        if *word / size == digit {
            rests.push(*word % size);
        }
    }
    rests
}

/// Up to `MAX_LEVELS` words, each a number.
#[derive(Drop)]
pub struct Words {
    words: [u64; MAX_LEVELS],
    count: usize,
}

impl Model for Words {
    ghost Value = { List ℕ };

    ghost view = { λ w. take w.count w.words };

    ghost invariant = { λ w. w.count ≤ MAX_LEVELS };
}

impl Words {
    /// An empty list of words.
    pub fn new() -> Self
        ensures { result ≡ [] }
    {
        Words {
            words: [0; MAX_LEVELS],
            count: 0,
        }
    }

    /// Appends `word`.
    pub fn push(&mut self, word: u64)
        requires { length self.old < MAX_LEVELS }
        ensures { self.new ≡ self.old ++ word ∷ [] }
    {
        self.words[self.count] = word;
        self.count += 1;
    }

    /// Appends the words `more`, in their order.
    pub fn append(&mut self, more: &[u64])
        requires { length self.old + length more.now ≤ MAX_LEVELS }
        ensures { self.new ≡ self.old ++ more.now }
    {
        for word in more {
            self.push(*word);
        }
    }

    /// The words.
    pub fn as_slice(&self) -> &[u64]
        ensures { result.now ≡ self.now }
    {
        &self.words[..self.count]
    }
}
