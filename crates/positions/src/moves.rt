//! The moves from a configuration.

ghost use Rattle.std.specs.Prelude.{◌≡◌, ℕ, ◌+◌, ◌*◌, ◌<◌, ◌≤◌, ◌↔◌, true, IsTrue};
ghost use Rattle.std.specs.Int.{bit_at};
ghost use Rattle.board_text.specs.Domination.{has_bit};
ghost use Rattle.board_text.specs.PlainBoard.{DominatesPlace};
ghost use Rattle.positions.specs.Game.{Legal, moved};
ghost use Rattle.positions.specs.Gaps.{IsDominator};
ghost use Rattle.positions.specs.Position.{position_at};
ghost use Rattle.positions.specs.Ranks.{configurations, rank_of};
ghost use Rattle.positions.specs.Inside.LegalWords.{AreBitsOf, AreOfEarlier, AreOfOthers};

use crate::label_set::LabelSet;
use crate::members::Members;
use crate::space::{MAX_CONFIGURATIONS, Space};
use board_text::{Board, MAX_LABELS, MAX_PEBBLES};
use std::marker::Model;

/// The moves from a configuration, whose places are found once for all of them.
///
/// Contracts see the board and the configuration.
#[derive(Drop)]
pub struct LegalMoves<'a> {
    board: &'a Board,
    space: &'a Space,
    rank: u32,
    /// The place of each pebble of the board.
    places: [u16; MAX_PEBBLES],
    /// For each pebble a bit for each label below 64: whether it dominates the other pebbles'
    /// places.
    legal: [u64; MAX_PEBBLES],
}

impl<'a> Model for LegalMoves<'a> {
    ghost use Rattle.positions.specs.Position.{Position, position_at};
    ghost use Rattle.positions.specs.Inside.Position.{HasPlaces};

    ghost Value = { Position };

    ghost view = { λ m. position_at m.board.now m.rank };

    ghost invariant = { λ m. HasPlaces m.board.now m.space.now m.rank m.places m.legal };
}

impl Space {
    /// The moves from the configuration of `rank`.
    ///
    /// The board is the one that the space was made for.
    pub fn moves<'a>(&'a self, board: &'a Board, rank: u32) -> LegalMoves<'a>
        requires same_board { self.now ≡ board.now }
        requires rank { rank < configurations self.now }
        ensures { result ≡ position_at board.now rank }
    {
        let mut places = [0; MAX_PEBBLES];
        let mut rest = rank;
        for pebble in 0..self.pebbles() {
            let weight = self.weight(pebble).value();
            places[pebble as usize] = (rest / weight) as u16;
            rest %= weight;
        }
        let legal = legal_words(board, &places);
        LegalMoves {
            board,
            space: self,
            rank,
            places,
            legal,
        }
    }
}

impl<'a> LegalMoves<'a> {
    /// Whether a request of `pebble` may be answered with `label`.
    pub fn is_legal(&self, pebble: u8, label: u16) -> bool
        ensures { IsTrue result ↔ Legal self.now.board self.now.configuration pebble label }
    {
        if label >= self.board.labels() {
            return false;
        }
        if label < 64 && pebble < self.board.pebbles() {
            return is_set(self.legal[pebble as usize], label);
        }
        self.dominates_others(pebble, label)
    }

    /// Whether `label` dominates the places of all pebbles but `pebble`.
    fn dominates_others(&self, pebble: u8, label: u16) -> bool
        requires { label < self.now.board.labels }
        ensures { IsTrue result ↔ Legal self.now.board self.now.configuration pebble label }
    {
        for other in 0..self.space.pebbles() {
            if other != pebble && !self.board.beats_place(label, self.places[other as usize]) {
                return false;
            }
        }
        true
    }

    /// Whether `pebble` holds a label that dominates all others.
    pub fn dominates(&self, pebble: u8) -> bool
        requires { pebble < self.now.board.pebbles }
        ensures { IsTrue result ↔ IsDominator self.now.board self.now.configuration pebble }
    {
        self.is_legal(pebble, self.places[pebble as usize])
    }

    /// The labels that a request of `pebble` may be answered with.
    pub fn answers(&self, pebble: u8) -> LabelSet
        ensures bits { (label : ℕ) → label < MAX_LABELS
            → (has_bit result label ≡ true)
            ↔ Legal self.now.board self.now.configuration pebble label }
        ensures few { self.now.board.labels ≤ MAX_LABELS }
    {
        let mut answers = self.space.every_label();
        for other in 0..self.space.pebbles() {
            let held = self.places[other as usize];
            if other != pebble && held < self.board.labels() {
                answers = answers.intersection(self.board.dominators(held));
            }
        }
        answers
    }

    /// The ranks of the configurations after a request of `pebble`, by the label of the answer.
    pub fn results(&self, pebble: u8) -> Members
        requires { pebble < self.now.board.pebbles }
        ensures ranks { (label : ℕ) → label < self.now.board.labels
            → result.first + label * result.step
            ≡ rank_of self.now.board (moved self.now.configuration pebble label) }
        ensures below { (label : ℕ) → label < self.now.board.labels
            → result.first + label * result.step < configurations self.now.board }
        ensures few { configurations self.now.board ≤ MAX_CONFIGURATIONS }
    {
        let step = self.space.weight(pebble).value();
        let first = self.rank - self.places[pebble as usize] as u32 * step;
        Members { first, step }
    }

    /// The rank of the configuration after `pebble` is put on `label`.
    pub fn after(&self, pebble: u8, label: u16) -> u32
        requires pebble { pebble < self.now.board.pebbles }
        requires label { label < self.now.board.labels }
        ensures rank { result ≡ rank_of self.now.board (moved self.now.configuration pebble label) }
        ensures below { result < configurations self.now.board }
    {
        self.results(pebble).rank(label)
    }
}

/// For each of the `places` of the board's pebbles a bit for each label below 64: whether it
/// dominates all others of them. They are found in two passes, by those before and after each.
#[inline(always)]
fn legal_words(board: &Board, places: &[u16; MAX_PEBBLES]) -> [u64; MAX_PEBBLES]
    ensures { AreOfOthers board.now places.now result }
{
    let mut words = words_before(board, places);
    let mut after = u64::MAX;
    for pebble in (0..board.pebbles()).rev() {
        words[pebble as usize] &= after;
        after &= dominators_word(board, places[pebble as usize]);
    }
    words
}

/// For each of the `places` of the board's pebbles a bit for each label below 64: whether it
/// dominates those before it.
#[inline(always)]
fn words_before(board: &Board, places: &[u16; MAX_PEBBLES]) -> [u64; MAX_PEBBLES]
    ensures { AreOfEarlier board.now places.now board.now.pebbles result }
{
    let mut words = [0; MAX_PEBBLES];
    let mut before = u64::MAX;
    for pebble in 0..board.pebbles() {
        words[pebble as usize] = before;
        before &= dominators_word(board, places[pebble as usize]);
    }
    words
}

/// A bit for each label below 64: whether it dominates `place`.
#[inline(always)]
fn dominators_word(board: &Board, place: u16) -> u64
    ensures { AreBitsOf (λ label. DominatesPlace board.now label place) result }
{
    if place < board.labels() {
        board.dominators(place)[0]
    } else {
        u64::MAX
    }
}

/// Whether the bit of `label` is set in `word`.
#[inline(always)]
fn is_set(word: u64, label: u16) -> bool
    requires { label < 64 }
    ensures { IsTrue result ↔ (bit_at word label ≡ 1) }
{
    (word >> label) & 1 == 1
}
