//! A game on a nested board that is never built.

ghost use Rattle.std.specs.Prelude.{◌≡◌, ◌≢◌, ◌+◌, ◌<◌, ℕ, replicate, slice_index, slice_set, IfOk};
ghost use Rattle.board_text.specs.Ranges.{InRange};
ghost use Rattle.nested_cycles.specs.Domination.{labels_of, NestedDominates};
ghost use Rattle.nested_cycles.specs.NestedGame.{PlainGame, plain_game, IsGood, other_words};
ghost use Rattle.nested_cycles.specs.Reply.{NestedReply};

use crate::copies::Words;
use crate::replies::nested_reply;
use board_text::Memory;
use std::alloc::Global;
use std::marker::Model;

/// The highest level of a game, at which labels are numbers below 3^23.
pub const MAX_LEVELS: usize = 24;

/// A game on the nested board of a level, 1 to `MAX_LEVELS`,
/// with as many pebbles as levels. It is answered for ever.
#[derive(Drop)]
pub struct NestedGame {
    levels: u8,
    words: Vec<u64>,
}

impl Model for NestedGame {
    ghost Value = { PlainGame };

    ghost view = { λ g. plain_game g.levels g.words.items };

    ghost invariant = { λ g. IsGood (plain_game g.levels g.words.items) };
}

impl NestedGame {
    /// The game in which all pebbles are on the label 0.
    pub fn new(alloc: Global, levels: u8) -> Result<Self, Memory>
        requires { InRange 1 MAX_LEVELS levels }
        ensures { IfOk result (λ game. game ≡ plain_game levels (replicate levels 0)) }
    {
        let words = vec![in alloc; 0; usize::from(levels)]?;
        Ok(NestedGame { levels, words })
    }

    /// The level, which is also the number of pebbles.
    pub fn levels(&self) -> u8
        ensures levels { result ≡ self.now.levels }
        ensures good { IsGood self.now }
    {
        self.levels
    }

    /// Puts `pebble` on a word that dominates the words of
    /// all other pebbles, and returns that word.
    pub fn request(&mut self, pebble: u8) -> u64
        requires { pebble < self.old.levels }
        ensures label { result < labels_of self.old.levels }
        ensures reply { NestedReply self.old.levels (other_words pebble self.old.words) result }
        ensures dominates { (other : ℕ) → other < self.old.levels → other ≢ pebble
            → NestedDominates self.old.levels result (slice_index self.old.words other) }
        ensures moved { self.new ≡ plain_game self.old.levels
            (slice_set self.old.words pebble result) }
        ensures good { IsGood self.new }
    {
        let index = usize::from(pebble);
        let mut others = Words::new();
        others.append(&self.words[..index]);
        others.append(&self.words[index + 1..]);
        let reply = nested_reply(self.levels, others.as_slice());
        self.words[index] = reply;
        reply
    }

    /// The word of each pebble.
    pub fn words(&self) -> &[u64]
        ensures words { result.now ≡ self.now.words }
        ensures good { IsGood self.now }
    {
        self.words.as_slice()
    }
}
