//! The answers of all gaps of a board, made once.

ghost use Rattle.std.specs.Prelude.{◌≡◌, ℕ, ◌<◌, ◌≤◌, ◌↔◌, true, IfOk};
ghost use Rattle.board_text.specs.Domination.{has_bit};
ghost use Rattle.positions.specs.Gaps.{gaps, gaps_each, IsAnswer};
ghost use Rattle.positions.specs.Ranks.{configurations};
ghost use Rattle.positions.specs.Tuples.{tuple_of};

use crate::column::Column;
use crate::label_set::LabelSet;
use crate::space::MAX_CONFIGURATIONS;
use board_text::{Board, MAX_LABELS, Memory, ROW_WORDS};
use std::alloc::Global;
use std::marker::Model;
use std::snapshot::Snapshot;

/// The answers for each tuple of places of the other pebbles. Gaps of the same tuple have the same
/// answers, whichever their pebbles are.
///
/// Contracts see it as the board.
#[derive(Drop)]
pub struct TupleAnswers {
    /// The board, for contracts alone: it takes no memory.
    board: Snapshot<Board>,
    /// For 64 labels each, so a tuple takes 8 bytes on a board of at most 64 labels, and not 32.
    columns: [Column; ROW_WORDS],
}

impl Model for TupleAnswers {
    ghost use Rattle.board_text.specs.PlainBoard.{PlainBoard};
    ghost use Rattle.positions.specs.Inside.Tuples.{AreColumns};

    ghost Value = { PlainBoard };

    ghost view = { λ s. s.board.value };

    ghost invariant = { λ s. AreColumns s.board.value s.columns };
}

impl TupleAnswers {
    /// The answers of the gaps of `board`, which has at most `MAX_CONFIGURATIONS` configurations.
    pub fn of(alloc: Global, board: &Board) -> Result<TupleAnswers, Memory>
        requires { configurations board.now ≤ MAX_CONFIGURATIONS }
        ensures { IfOk result (λ answers. answers ≡ board.now) }
    {
        let columns = [
            Column::of(alloc, board, 0)?,
            Column::of(alloc, board, 1)?,
            Column::of(alloc, board, 2)?,
            Column::of(alloc, board, 3)?,
        ];
        Ok(TupleAnswers {
            board: Snapshot::of(board),
            columns,
        })
    }

    /// The answers of the gaps of `tuple`.
    pub fn answers(&self, tuple: u32) -> LabelSet
        requires { tuple < gaps_each self.now }
        ensures { (gap : ℕ) → gap < gaps self.now → tuple_of self.now gap ≡ tuple
            → (label : ℕ) → label < MAX_LABELS
            → (has_bit result label ≡ true) ↔ IsAnswer self.now gap label }
    {
        LabelSet::new([
            self.columns[0].word(tuple),
            self.columns[1].word(tuple),
            self.columns[2].word(tuple),
            self.columns[3].word(tuple),
        ])
    }
}
