//! The sections of a document over normal places.

ghost use Rattle.strategies.specs.Inside.ClassSide.{adversary_side_on, labeller_side_on};
ghost use Rattle.strategies.specs.Inside.NumberedPositions.{IsNormalKind, answer_moves};
ghost use Rattle.strategies.specs.Inside.NumberedPositions.{request_moves};

use crate::position_walk::PositionWalk;
use crate::reached_numbers::ReachedNumbers;
use crate::sections::{SectionRow, turns};
use crate::steps::{add_new_answers, add_results};
use board_text::Memory;
use positions::Value;
use proof_text::{AdversaryClassRow, LabellerClassRow, places_at};

impl SectionRow for LabellerClassRow {
    ghost names = { IsNormalKind };

    ghost side = { labeller_side_on };

    ghost moves = { answer_moves };

    fn names_answers() -> bool {
        true
    }

    /// The value of the places is 1 or more.
    fn may_start<W: PositionWalk>(here: &W) -> bool {
        let (value, _) = here.best_request();
        Value::Finite(0) < value
    }

    fn add_steps<W: PositionWalk, S: ReachedNumbers>(
        here: &W,
        reached: &mut S,
        expanded: &mut S,
    ) -> Result<(), Memory> {
        add_new_answers(here, reached, expanded)
    }

    fn at<W: PositionWalk>(here: &W, number: u64, start: Value) -> Option<LabellerClassRow> {
        let (value, take) = here.best_labels();
        Some(LabellerClassRow {
            at: places_at(here.board(), number),
            turns: turns(start, value),
            take,
        })
    }
}

impl SectionRow for AdversaryClassRow {
    ghost names = { IsNormalKind };

    ghost side = { adversary_side_on };

    ghost moves = { request_moves };

    fn names_answers() -> bool {
        false
    }

    fn may_start<W: PositionWalk>(_here: &W) -> bool {
        true
    }

    fn add_steps<W: PositionWalk, S: ReachedNumbers>(
        here: &W,
        reached: &mut S,
        expanded: &mut S,
    ) -> Result<(), Memory> {
        add_results(here, reached, expanded)
    }

    fn at<W: PositionWalk>(here: &W, number: u64, _start: Value) -> Option<AdversaryClassRow> {
        let board = here.board();
        let (value, request) = here.best_request();
        let Value::Finite(left) = value else {
            return None;
        };
        let pebble = request?;
        let ask = here.held()[pebble as usize];
        let at = places_at(board, number);
        Some(AdversaryClassRow { at, left, ask })
    }
}
