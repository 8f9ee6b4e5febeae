//! The sections of a document by configurations.

ghost use Rattle.std.specs.Prelude.{◌≡◌, ◌++◌, ℕ, List, IfOk, OnOk};
ghost use Rattle.board_text.specs.PlainBoard.{PlainBoard};
ghost use Rattle.positions.specs.declared.value.Value.{Value as ValueData};
ghost use Rattle.strategies.specs.Inside.NumberedPositions.{IsRankKind, answer_moves, over_ranks};
ghost use Rattle.strategies.specs.Inside.NumberedPositions.{PositionKind, request_moves};
ghost use Rattle.strategies.specs.Inside.Lines.{adversary_line, labeller_line};
ghost use Rattle.strategies.specs.Inside.Marks.{IsMarked};
ghost use Rattle.strategies.specs.Inside.Numbering.{by_rank};
ghost use Rattle.strategies.specs.Inside.Side.{AreReached, AreSection, adversary_side};
ghost use Rattle.strategies.specs.Inside.Side.{labeller_side};

use crate::line_walk::LineWalk;
use crate::marked_numbers::MarkedNumbers;
use crate::marks::Marks;
use crate::position_walk::PositionWalk;
use crate::rank_moves::RankMoves;
use crate::reached_numbers::ReachedNumbers;
use crate::sections::{SectionRow, reached, section, turns};
use crate::steps::{add_answers, add_results};
use crate::walk::Walk;
use board_text::Memory;
use positions::Value;
use proof_text::{AdversaryRow, LabellerRow, RowText};
use std::alloc::{AllocError, Global};

/// A row that has a line in a text.
pub(crate) trait LineRow: SectionRow {
    // The line of a row.
    ghost line: { PlainBoard → Self → List ℕ };

    /// Appends the row's line to `text`. The row is at the configuration where `here` is.
    fn write(&self, here: &LineWalk<'_>, text: &mut RowText) -> Result<(), AllocError>
        requires { (start : ValueData) × ((Self.side (over_ranks here.now.board) start).at
            ((Self.side (over_ranks here.now.board) start).shown self.now) ≡ here.now.held) }
        ensures { OnOk result
            (text.new.bytes ≡ text.old.bytes ++ line here.now.board self.now) };

    // It names configurations by their ranks.
    ghost ranked: { (kind : PositionKind) → IsRankKind kind → Self.names kind };
}

/// Marks of the configurations that a row may stand at.
pub(crate) fn reached_marks<R: LineRow>(
    alloc: Global,
    moves: &RankMoves<'_>,
) -> Result<Marks, Memory>
    ensures { IfOk result (λ marks. (start : ValueData) → AreReached (by_rank moves.now)
        moves.now (R.side (over_ranks moves.now) start) (IsMarked marks)) }
{
    let mut here = Walk::at(moves, moves.start());
    let set = MarkedNumbers::new(alloc, moves.space().configurations())?;
    let expanded = MarkedNumbers::new(alloc, moves.space().gaps())?;
    match reached::<R, Walk<'_>, MarkedNumbers>(&mut here, set, expanded) {
        Ok(set) => Ok(set.into_marks()),
        // Each configuration has its mark, so there are never too many.
        Err(_) => Err(Memory),
    }
}

/// One side's rows of the document of a board whose start has the value `start`, in ascending rank.
pub(crate) fn rank_section<R: LineRow>(
    alloc: Global,
    moves: &RankMoves<'_>,
    start: Value,
) -> Result<Vec<R>, Memory>
    ensures { IfOk result (λ rows. AreSection (by_rank moves.now)
        (R.side (over_ranks moves.now) start) rows.items) }
{
    let mut here = Walk::at(moves, moves.start());
    let set = MarkedNumbers::new(alloc, moves.space().configurations())?;
    let expanded = MarkedNumbers::new(alloc, moves.space().gaps())?;
    match section(alloc, &mut here, set, expanded, start) {
        Ok(rows) => Ok(rows),
        // Each configuration has its mark, so there are never too many.
        Err(_) => Err(Memory),
    }
}

impl SectionRow for LabellerRow {
    ghost names = { IsRankKind };

    ghost side = { λ over. labeller_side over.board };

    ghost moves = { answer_moves };

    fn names_answers() -> bool {
        true
    }

    /// The value of the configuration is 1 or more.
    fn may_start<W: PositionWalk>(here: &W) -> bool {
        let (value, _) = here.best_request();
        Value::Finite(0) < value
    }

    fn add_steps<W: PositionWalk, S: ReachedNumbers>(
        here: &W,
        reached: &mut S,
        _expanded: &mut S,
    ) -> Result<(), Memory> {
        // A table has the best answers, and to look there costs less than to note their gaps.
        add_answers(here, reached)
    }

    fn at<W: PositionWalk>(here: &W, number: u64, start: Value) -> Option<LabellerRow> {
        let (value, take) = here.best_labels();
        Some(LabellerRow {
            at: number as u32,
            turns: turns(start, value),
            take,
        })
    }
}

impl SectionRow for AdversaryRow {
    ghost names = { IsRankKind };

    ghost side = { λ over. adversary_side over.board };

    ghost moves = { request_moves };

    fn names_answers() -> bool {
        false
    }

    fn may_start<W: PositionWalk>(_here: &W) -> bool {
        true
    }

    fn add_steps<W: PositionWalk, S: ReachedNumbers>(
        here: &W,
        reached: &mut S,
        expanded: &mut S,
    ) -> Result<(), Memory> {
        add_results(here, reached, expanded)
    }

    fn at<W: PositionWalk>(here: &W, number: u64, _start: Value) -> Option<AdversaryRow> {
        let (value, request) = here.best_request();
        let Value::Finite(left) = value else {
            return None;
        };
        let ask = request?;
        let at = number as u32;
        Some(AdversaryRow { at, left, ask })
    }
}

impl LineRow for LabellerRow {
    ghost ranked = { λ kind are. are };

    ghost line = { labeller_line };

    fn write(&self, here: &LineWalk<'_>, text: &mut RowText) -> Result<(), AllocError> {
        let walk = here.walk();
        let pebbles = walk.board().pebbles() as usize;
        let take = &self.take[..pebbles];
        text.push_answer_after(here.words(), here.head(), walk.last(), self.turns, take)
    }
}

impl LineRow for AdversaryRow {
    ghost ranked = { λ kind are. are };

    ghost line = { adversary_line };

    fn write(&self, here: &LineWalk<'_>, text: &mut RowText) -> Result<(), AllocError> {
        text.push_request(here.words(), here.walk().held(), self.left, self.ask)
    }
}
