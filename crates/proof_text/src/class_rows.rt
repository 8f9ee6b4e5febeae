//! Rows that name their classes by arranged places.

ghost use Rattle.proof_text.specs.Inside.Rows.{class_labeller_reading, class_adversary_reading};

use crate::class_proof::{AdversaryClassRow, LabellerClassRow, MAX_CLASS_ROWS};
use crate::fault::ProofKind;
use crate::numbers::arranged_order;
use crate::row_text::{PlaceWords, RowText};
use crate::row_words::class_request_words;
use crate::rows::{Row, read_answer};
use board_text::line_reader::LineReader;
use board_text::{Board, MAX_PEBBLES};
use positions::Claim;
use std::alloc::AllocError;

impl Row<Board> for LabellerClassRow {
    ghost reading = { class_labeller_reading };

    ghost IsOfBoard = { λ board row. Unit {0} };

    ghost kinds = { λ board claim. record {
      no_version = λ rest h. h;
      no_claim = λ rest h. h;
      no_section = λ rest h. h;
      no_end = λ rest h. h;
      no_trailing = λ rest h. h;
      no_memory = λ rest h. h;
    } };

    fn word() -> &'static str {
        "labeller"
    }

    fn is_asked(claim: Claim) -> bool {
        !matches!(claim, Claim::AtMost(_))
    }

    fn most() -> u32 {
        MAX_CLASS_ROWS
    }

    fn read(
        text: &mut LineReader<'_>,
        board: &Board,
        claim: Claim,
        least: &mut u64,
    ) -> Result<LabellerClassRow, ProofKind> {
        let row = read_answer(text, board, claim)?;
        let Some(number) = arranged_order(board, &row.at[..board.pebbles() as usize]) else {
            return Err(ProofKind::Order);
        };
        if number < *least {
            return Err(ProofKind::Order);
        }
        *least = number + 1;
        Ok(row)
    }

    fn write(
        &self,
        text: &mut RowText,
        words: &PlaceWords,
        board: &Board,
    ) -> Result<(), AllocError> {
        let pebbles = board.pebbles() as usize;
        text.push_answer(
            words,
            &self.at[..pebbles],
            self.turns,
            &self.take[..pebbles],
        )
    }
}

impl Row<Board> for AdversaryClassRow {
    ghost reading = { class_adversary_reading };

    ghost IsOfBoard = { λ board row. Unit {0} };

    ghost kinds = { λ board claim. record {
      no_version = λ rest h. h;
      no_claim = λ rest h. h;
      no_section = λ rest h. h;
      no_end = λ rest h. h;
      no_trailing = λ rest h. h;
      no_memory = λ rest h. h;
    } };

    fn word() -> &'static str {
        "adversary"
    }

    fn is_asked(claim: Claim) -> bool {
        matches!(claim, Claim::Exactly(_) | Claim::AtMost(_))
    }

    fn most() -> u32 {
        MAX_CLASS_ROWS
    }

    fn read(
        text: &mut LineReader<'_>,
        board: &Board,
        _claim: Claim,
        least: &mut u64,
    ) -> Result<AdversaryClassRow, ProofKind> {
        let pebbles = board.pebbles() as usize;
        let mut at = [0; MAX_PEBBLES];
        let mut ask = [0; 1];
        let Some(values) = class_request_words(
            text,
            board.labels(),
            board.places(),
            &mut at[..pebbles],
            &mut ask[..],
        ) else {
            return Err(ProofKind::Row);
        };
        if !values.are_places || !values.is_place {
            return Err(ProofKind::Label);
        }
        if !at[..pebbles].contains(&ask[0]) {
            return Err(ProofKind::Pebble);
        }
        let Some(left) = values.left else {
            return Err(ProofKind::Number);
        };
        let Some(number) = arranged_order(board, &at[..pebbles]) else {
            return Err(ProofKind::Order);
        };
        if number < *least {
            return Err(ProofKind::Order);
        }
        *least = number + 1;
        Ok(AdversaryClassRow {
            at,
            left,
            ask: ask[0],
        })
    }

    fn write(
        &self,
        text: &mut RowText,
        words: &PlaceWords,
        board: &Board,
    ) -> Result<(), AllocError> {
        let places = &self.at[..board.pebbles() as usize];
        text.push_class_request(words, places, self.left, self.ask)
    }
}
