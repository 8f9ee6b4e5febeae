//! A document's rows, ready to be checked.

ghost use Rattle.std.specs.Prelude.{◌≡◌, ◌<◌, ◌≤◌, IfOk};
ghost use Rattle.board_text.specs.PlainBoard.{IsConfiguration};
ghost use Rattle.positions.specs.Position.{position_at};
ghost use Rattle.positions.specs.Ranks.{configurations, rank_of};
ghost use Rattle.proof_text.specs.Documents.{IsDocument};
ghost use Rattle.proof_text.specs.Proof.{plain_proof, answer_rows, request_rows};
ghost use Rattle.proof_check.specs.Inside.Checker.{AreAnswering, AreRequesting};
ghost use Rattle.proof_check.specs.Inside.GapBounds.{AreBounds};

use crate::row_index::RowIndex;
use board_text::Board;
use positions::{LegalMoves, MAX_CONFIGURATIONS, Space};
use proof_text::{AdversaryRow, Claim, LabellerRow, Proof};
use std::alloc::{AllocError, Global};
use std::marker::Model;

/// A board, and a document for it whose rows are found by their configurations.
///
/// Contracts see the board and the document.
#[derive(Drop)]
pub(crate) struct Checker<'a> {
    board: &'a Board,
    space: Space,
    claim: Claim,
    labeller: RowIndex<'a, LabellerRow>,
    adversary: RowIndex<'a, AdversaryRow>,
    /// For each gap that a row of the adversary asks, a number above those of the rows of all
    /// results.
    bounds: Vec<u32>,
}

impl<'a> Model for Checker<'a> {
    ghost use Rattle.proof_check.specs.Inside.Checker.{Checked, checked_document, IsChecker};

    ghost Value = { Checked };

    ghost view = { λ c. checked_document c.board.now c.claim c.labeller c.adversary };

    ghost invariant = { λ c. IsChecker c.board.now c.space c.labeller c.adversary c.bounds.items };
}

impl<'a> Checker<'a> {
    /// A checker of `proof` on `board`: the document's rows by their configurations.
    pub(crate) fn new(
        alloc: Global,
        board: &'a Board,
        proof: &'a Proof,
    ) -> Result<Checker<'a>, AllocError>
        requires few { configurations board.now ≤ MAX_CONFIGURATIONS }
        requires document { IsDocument board.now proof.now }
        ensures board { IfOk result (λ checker. checker.board ≡ board.now) }
        ensures proof { IfOk result (λ checker. checker.proof ≡ plain_proof board.now proof.now) }
    {
        let space = Space::new(board);
        let size = space.configurations();
        let mut checker = Checker {
            board,
            space,
            claim: proof.claim,
            labeller: RowIndex::new(alloc, size, &proof.labeller)?,
            adversary: RowIndex::new(alloc, size, &proof.adversary)?,
            bounds: Vec::new(alloc),
        };
        checker.bounds = checker.bounds_of_rows(alloc)?;
        Ok(checker)
    }

    /// The document's claim.
    pub(crate) fn claim(&self) -> Claim
        ensures { result ≡ self.now.proof.claim }
    {
        self.claim
    }

    /// The number of pebbles of the board.
    pub(crate) fn pebbles(&self) -> u8
        ensures { result ≡ self.now.board.pebbles }
    {
        self.board.pebbles()
    }

    /// The rank of the start.
    pub(crate) fn start(&self) -> u32
        ensures rank { result ≡ rank_of self.now.board self.now.board.start }
        ensures start { IsConfiguration self.now.board self.now.board.start }
    {
        self.space.rank(self.board.start())
    }

    /// The moves from the configuration of `rank`.
    pub(crate) fn moves(&self, rank: u32) -> LegalMoves<'_>
        requires { rank < configurations self.now.board }
        ensures { result ≡ position_at self.now.board rank }
    {
        self.space.moves(self.board, rank)
    }

    /// The configurations and gaps of the board.
    pub(crate) fn space(&self) -> &Space
        ensures { result.now ≡ self.now.board }
    {
        &self.space
    }

    /// The bounds of gaps. `NO_BOUND` is none.
    pub(crate) fn bounds(&self) -> &[u32]
        ensures { AreBounds self.now.board self.now.proof.adversary result.now }
    {
        &self.bounds
    }

    /// The labeller's rows.
    pub(crate) fn labeller(&self) -> &RowIndex<'a, LabellerRow>
        ensures rows { answer_rows self.now.board result.now ≡ self.now.proof.labeller }
        ensures ready { AreAnswering self.now.board result.now }
    {
        &self.labeller
    }

    /// The adversary's rows.
    pub(crate) fn adversary(&self) -> &RowIndex<'a, AdversaryRow>
        ensures rows { request_rows self.now.board result.now ≡ self.now.proof.adversary }
        ensures ready { AreRequesting self.now.board result.now }
    {
        &self.adversary
    }
}
