//! The rows of a document, of either side and in each version: how they are read and written.

ghost use Rattle.std.specs.Prelude.{◌≡◌, ◌<◌, ◌≤◌, ◌++◌, OnOk};
ghost use Rattle.board_text.specs.PlainBoard.{PlainBoard, IsBoard, places as places_of};
ghost use Rattle.positions.specs.declared.claim.Claim.{Claim as ClaimData};
ghost use Rattle.proof_text.specs.SectionFaults.{RowReading};
ghost use Rattle.proof_text.specs.Inside.Rows.{NextRow, AreKindsOfRows, IsLeast, TakesAnswer};

use crate::class_proof::{LabellerClassRow, MAX_CLASS_ROWS};
use crate::fault::ProofKind;
use crate::row_text::{PlaceWords, RowText};
use crate::row_words::answer_words;
use board_text::line_reader::LineReader;
use board_text::{Board, MAX_PEBBLES};
use positions::{Claim, Space};
use std::alloc::AllocError;

/// The board that rows are for, in the form that a version of documents needs.
pub(crate) trait BoardOfRows {
    ghost board: { Self → PlainBoard };

    /// How many labels the board has.
    fn labels(&self) -> u16
        ensures value { result ≡ (board self.now).labels }
        ensures is_board { IsBoard (board self.now) };

    /// How many pebbles the board has.
    fn pebbles(&self) -> u8
        ensures value { result ≡ (board self.now).pebbles }
        ensures is_board { IsBoard (board self.now) };

    /// How many places a pebble can have.
    fn places(&self) -> u16
        ensures { result ≡ places_of (board self.now) };
}

impl BoardOfRows for Space {
    ghost board = { λ space. space };

    fn labels(&self) -> u16 {
        Space::labels(self)
    }

    fn pebbles(&self) -> u8 {
        Space::pebbles(self)
    }

    fn places(&self) -> u16 {
        Space::places(self)
    }
}

impl BoardOfRows for Board {
    ghost board = { λ board. board };

    fn labels(&self) -> u16 {
        Board::labels(self)
    }

    fn pebbles(&self) -> u8 {
        Board::pebbles(self)
    }

    fn places(&self) -> u16 {
        Board::places(self)
    }
}

/// A row of one side's section.
pub(crate) trait Row<B: BoardOfRows>: Copy {
    ghost reading: { PlainBoard → ClaimData → RowReading Self };

    /// The row is for a configuration of the board.
    ghost IsOfBoard: { PlainBoard → Self → Type 0 };

    /// The word at the head of the section.
    fn word() -> &'static str
        ensures { (board : PlainBoard) → (claim : ClaimData)
            → result.now ≡ (reading board claim).form.word };

    /// Whether a document with `claim` has the section.
    fn is_asked(claim: Claim) -> bool
        ensures { (board : PlainBoard) → result ≡ (reading board claim).form.asked };

    /// The most rows of a section.
    fn most() -> u32
        ensures value { (board : PlainBoard) → (claim : ClaimData)
            → result ≡ (reading board claim).form.most }
        ensures few { result ≤ MAX_CLASS_ROWS };

    /// Reads the row of the next line. The number of its places must be at least `least`, which
    /// becomes the next one.
    fn read(
        text: &mut LineReader<'_>,
        board: &B,
        claim: Claim,
        least: &mut u64,
    ) -> Result<Self, ProofKind>
        requires { IsLeast (reading (B.board board.now) claim).form least.old }
        ensures { NextRow
            (reading (B.board board.now) claim) least.old least.new result text.old text.new };

    /// Appends the row's line to `text`. The `words` are those of the board's places.
    fn write(&self, text: &mut RowText, words: &PlaceWords, board: &B) -> Result<(), AllocError>
        requires words { words.now ≡ (B.board board.now).labels }
        requires of_board { IsOfBoard (B.board board.now) self.now }
        ensures { OnOk result ((claim : ClaimData)
            → text.new.bytes
            ≡ text.old.bytes ++ (reading (B.board board.now) claim).form.line self.now) };

    ghost kinds: { (board : PlainBoard) → (claim : ClaimData)
        → AreKindsOfRows (reading board claim) };
}

/// Takes the line of a labeller's row, whatever the order of its places, and returns its values.
#[inline(always)]
pub(crate) fn read_answer<B: BoardOfRows>(
    text: &mut LineReader<'_>,
    board: &B,
    claim: Claim,
) -> Result<LabellerClassRow, ProofKind>
    ensures { TakesAnswer (B.board board.now) claim result text.old text.new }
{
    let pebbles = board.pebbles() as usize;
    let mut at = [0; MAX_PEBBLES];
    let mut take = [0; MAX_PEBBLES];
    let Some(values) = answer_words(
        text,
        board.labels(),
        board.places(),
        claim,
        &mut at[..pebbles],
        &mut take[..pebbles],
    ) else {
        return Err(ProofKind::Row);
    };
    if !values.are_places || !values.are_answers {
        return Err(ProofKind::Label);
    }
    let Some(turns) = values.turns else {
        return Err(ProofKind::Number);
    };
    Ok(LabellerClassRow { at, turns, take })
}
