//! Rows that name their configurations by ranks.

ghost use Rattle.board_text.specs.PlainBoard.{IsConfiguration};
ghost use Rattle.positions.specs.Ranks.{configuration_at};
ghost use Rattle.proof_text.specs.Inside.Rows.{labeller_reading, adversary_reading};

use crate::fault::ProofKind;
use crate::proof::{AdversaryRow, LabellerRow};
use crate::row_text::{PlaceWords, RowText};
use crate::row_words::request_words;
use crate::rows::{Row, read_answer};
use board_text::MAX_PEBBLES;
use board_text::line_reader::LineReader;
use positions::{Claim, MAX_CONFIGURATIONS, Space};
use std::alloc::AllocError;

impl Row<Space> for LabellerRow {
    ghost reading = { labeller_reading };

    ghost IsOfBoard = { λ board row. IsConfiguration board (configuration_at board row.at) };

    ghost kinds = { λ board claim. record {
      no_version = λ rest h. h;
      no_claim = λ rest h. h;
      no_section = λ rest h. h;
      no_end = λ rest h. h;
      no_trailing = λ rest h. h;
      no_memory = λ rest h. h;
    } };

    fn word() -> &'static str {
        "labeller"
    }

    fn is_asked(claim: Claim) -> bool {
        !matches!(claim, Claim::AtMost(_))
    }

    fn most() -> u32 {
        MAX_CONFIGURATIONS
    }

    fn read(
        text: &mut LineReader<'_>,
        space: &Space,
        claim: Claim,
        least: &mut u64,
    ) -> Result<LabellerRow, ProofKind> {
        let row = read_answer(text, space, claim)?;
        let rank = space.rank(&row.at[..space.pebbles() as usize]);
        let number = rank as u64;
        if number < *least {
            return Err(ProofKind::Order);
        }
        *least = number + 1;
        Ok(LabellerRow {
            at: rank,
            turns: row.turns,
            take: row.take,
        })
    }

    fn write(
        &self,
        text: &mut RowText,
        words: &PlaceWords,
        space: &Space,
    ) -> Result<(), AllocError> {
        let pebbles = space.pebbles() as usize;
        let places = space.places_at(self.at);
        text.push_answer(words, &places[..pebbles], self.turns, &self.take[..pebbles])
    }
}

impl Row<Space> for AdversaryRow {
    ghost reading = { adversary_reading };

    ghost IsOfBoard = { λ board row. IsConfiguration board (configuration_at board row.at) };

    ghost kinds = { λ board claim. record {
      no_version = λ rest h. h;
      no_claim = λ rest h. h;
      no_section = λ rest h. h;
      no_end = λ rest h. h;
      no_trailing = λ rest h. h;
      no_memory = λ rest h. h;
    } };

    fn word() -> &'static str {
        "adversary"
    }

    fn is_asked(claim: Claim) -> bool {
        matches!(claim, Claim::Exactly(_) | Claim::AtMost(_))
    }

    fn most() -> u32 {
        MAX_CONFIGURATIONS
    }

    fn read(
        text: &mut LineReader<'_>,
        space: &Space,
        _claim: Claim,
        least: &mut u64,
    ) -> Result<AdversaryRow, ProofKind> {
        let pebbles = space.pebbles();
        let mut at = [0; MAX_PEBBLES];
        let Some(values) = request_words(
            text,
            space.labels(),
            space.places(),
            pebbles,
            &mut at[..pebbles as usize],
        ) else {
            return Err(ProofKind::Row);
        };
        if !values.are_places {
            return Err(ProofKind::Label);
        }
        let Some(ask) = values.ask else {
            return Err(ProofKind::Pebble);
        };
        let Some(left) = values.left else {
            return Err(ProofKind::Number);
        };
        let rank = space.rank(&at[..pebbles as usize]);
        let number = rank as u64;
        if number < *least {
            return Err(ProofKind::Order);
        }
        *least = number + 1;
        Ok(AdversaryRow {
            at: rank,
            left,
            ask: ask as u8,
        })
    }

    fn write(
        &self,
        text: &mut RowText,
        words: &PlaceWords,
        space: &Space,
    ) -> Result<(), AllocError> {
        let pebbles = space.pebbles() as usize;
        let places = space.places_at(self.at);
        text.push_request(words, &places[..pebbles], self.left, self.ask)
    }
}
