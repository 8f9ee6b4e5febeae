//! The answers of all tuples, for 64 labels next to each other.

ghost use Rattle.std.specs.Prelude.{◌≡◌, ℕ, ◌+◌, ◌*◌, ◌<◌, ◌≤◌, ◌↔◌, suc, length, slice_index_or};
ghost use Rattle.std.specs.Prelude.{IfOk};
ghost use Rattle.std.specs.Int.{bit_at};
ghost use Rattle.board_text.specs.PlainBoard.{DominatesPlace, places};
ghost use Rattle.positions.specs.Ranks.{configurations};
ghost use Rattle.positions.specs.Inside.Tuples.{IsColumn, AreAllWords};

use crate::label_set::LabelSet;
use crate::space::MAX_CONFIGURATIONS;
use board_text::{Board, Memory, ROW_WORDS};
use std::alloc::Global;
use std::marker::Model;

/// For each tuple a word with the bits of those of 64 labels that dominate all its places. There
/// are no words if the board has none of these labels.
///
/// Contracts see the words.
#[derive(Drop)]
pub(crate) struct Column {
    words: Vec<u64>,
}

impl Model for Column {
    ghost use Rattle.std.specs.Prelude.{ℕ, List};

    ghost Value = { List ℕ };

    ghost view = { λ c. c.words.items };
}

impl Column {
    /// The column of the labels from `64 * number` on of `board`, which has at most
    /// `MAX_CONFIGURATIONS` configurations.
    pub(crate) fn of(alloc: Global, board: &Board, number: usize) -> Result<Column, Memory>
        requires number { number < ROW_WORDS }
        requires few { configurations board.now ≤ MAX_CONFIGURATIONS }
        ensures { IfOk result (λ column. IsColumn board.now number column) }
    {
        if 64 * number >= board.labels() as usize {
            return Ok(Column {
                words: Vec::new(alloc),
            });
        }
        let mut words = vec![in alloc; LabelSet::below(board.labels()).word(number); 1]?;
        for _ in 1..board.pebbles() {
            words = with_one_more(alloc, board, number, &words)?;
        }
        Ok(Column { words })
    }

    /// The word of `tuple`, or 0 if there are no words.
    pub(crate) fn word(&self, tuple: u32) -> u64
        ensures { result ≡ slice_index_or self.now tuple 0 }
    {
        match self.words.get(tuple as usize) {
            Some(word) => *word,
            None => 0,
        }
    }
}

/// The words for tuples with one more place, which stands before those of `fewer`.
fn with_one_more(
    alloc: Global,
    board: &Board,
    number: usize,
    fewer: &[u64],
) -> Result<Vec<u64>, Memory>
    requires number { number < ROW_WORDS }
    requires few { places board.now * length fewer.now ≤ MAX_CONFIGURATIONS }
    ensures { IfOk result (λ more. (count : ℕ) → AreAllWords board.now number count fewer.now
        → AreAllWords board.now number (suc count) more.items) }
{
    let places = board.places();
    let mut more = Vec::with_capacity(alloc, places as usize * fewer.len())?;
    for place in 0..places {
        let beating = word_beating(board, number, place);
        for word in fewer {
            more.push_reserved(*word & beating);
        }
    }
    Ok(more)
}

/// The bits of those labels of the column `number` that dominate `place`.
fn word_beating(board: &Board, number: usize, place: u16) -> u64
    requires number { number < ROW_WORDS }
    requires place { place < places board.now }
    ensures { (bit : ℕ) → bit < 64
        → (bit_at result bit ≡ 1) ↔ ((64 * number + bit < board.now.labels)
        × DominatesPlace board.now (64 * number + bit) place) }
{
    let every_label = LabelSet::below(board.labels()).word(number);
    if place < board.labels() {
        every_label & board.dominators(place)[number]
    } else {
        every_label
    }
}
