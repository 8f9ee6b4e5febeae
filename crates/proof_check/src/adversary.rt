//! The adversary's rows of a document, checked.

ghost use Rattle.std.specs.Prelude.{◌≡◌, suc, MatchOption};
ghost use Rattle.positions.specs.Game.{Legal, moved};
ghost use Rattle.positions.specs.Ranks.{configuration_at, rank_of};
ghost use Rattle.proof_text.specs.Positions.{configuration_positions};
ghost use Rattle.proof_text.specs.Proof.{request_row};
ghost use Rattle.proof_text.specs.Rules.{IsListedBelow, MeetsAnswer, MeetsAnswers, StartIsBelow};
ghost use Rattle.proof_check.specs.CheckFaults.{rank_refusals};
ghost use Rattle.proof_check.specs.Refusals.{IsWrongAfter, IsWrongRequest, IsWrongBound};
ghost use Rattle.proof_check.specs.Inside.Checker.{IsRequesting, HoldsAtRank};
ghost use Rattle.proof_check.specs.Inside.FoundRow.{IsUnservedBelow};
ghost use Rattle.proof_check.specs.Inside.RowCounts.{count_of_left};

use crate::checked_row::CheckedRow;
use crate::checker::Checker;
use crate::fault::CheckFault;
use crate::gap_bounds::NO_BOUND;
use crate::row_index::Counted;
use positions::Side;
use proof_text::{AdversaryRow, Claim};

impl Counted for AdversaryRow {
    ghost count = { λ row. count_of_left row.left };

    fn count(&self) -> u32 {
        if self.left == NO_BOUND {
            NO_BOUND
        } else {
            self.left + 1
        }
    }
}

impl<'a> CheckedRow<Checker<'a>, CheckFault> for AdversaryRow {
    ghost is_ready = { λ c row. IsRequesting c.board row };

    ghost meets = { λ c row. MeetsAnswers configuration_positions c.board c.proof.adversary
        (request_row c.board row) };

    ghost is_wrong = { λ c row. IsWrongRequest (rank_refusals c.board) c.board c.proof.adversary
        (request_row c.board row) };

    /// The fault of the row's first faulty label, if it has one.
    fn fault(&self, checker: &Checker<'a>) -> Option<CheckFault> {
        if checker.is_bounded(self) {
            return None;
        }
        let moves = checker.moves(self.at);
        let mut answers = moves.answers(self.ask).walk();
        let results = moves.results(self.ask);
        while let Some(label) = answers.take_next() {
            if let Some(fault) = checker.label_fault(self, label, results.rank(label)) {
                return Some(fault);
            }
        }
        None
    }
}

impl Checker<'_> {
    /// The fault of `row` at the legal answer `label`, if it has one. The result's rank is `rank`.
    fn label_fault(&self, row: &AdversaryRow, label: u16, rank: u32) -> Option<CheckFault>
        requires row { IsRequesting self.now.board row.now }
        requires legal { Legal self.now.board
            (configuration_at self.now.board row.now.at) row.now.ask label }
        requires rank { rank ≡ rank_of self.now.board
            (moved (configuration_at self.now.board row.now.at) row.now.ask label) }
        ensures { MatchOption result
            (MeetsAnswer configuration_positions self.now.board self.now.proof.adversary
            (request_row self.now.board row.now) label)
            (IsWrongAfter (rank_refusals self.now.board) self.now.proof.adversary
            (request_row self.now.board row.now) label) }
    {
        if row.left == 0 {
            return Some(CheckFault::NotStuck { at: row.at, label });
        }
        let missing = CheckFault::Unlisted {
            side: Side::Adversary,
            at: row.at,
            turn: label,
        };
        let large = CheckFault::TooLarge { at: row.at, label };
        self.number_fault(rank, row.left - 1, missing, large)
    }

    /// The fault of the start's number in the adversary's rows, if it has one. Only a claim that
    /// bounds the value from above can have it.
    pub(crate) fn bound_fault(&self) -> Option<CheckFault>
        ensures { MatchOption result
            (StartIsBelow self.now.proof.adversary self.now.board.start self.now.proof.claim)
            (IsWrongBound (rank_refusals self.now.board) self.now.board self.now.proof) }
    {
        let (Claim::Exactly(most) | Claim::AtMost(most)) = self.claim() else {
            return None;
        };
        let side = Side::Adversary;
        let missing = CheckFault::StartMissing { side };
        let large = CheckFault::StartNumber { side };
        self.number_fault(self.start(), most, missing, large)
    }

    /// The fault if the adversary's rows have no number up to `most` for `rank`: `missing` if no
    /// row has the rank, `large` if its row has a larger number.
    fn number_fault(
        &self,
        rank: u32,
        most: u32,
        missing: CheckFault,
        large: CheckFault,
    ) -> Option<CheckFault>
        ensures { HoldsAtRank self.now.board rank (λ configuration. MatchOption result
            (IsListedBelow self.now.proof.adversary configuration (suc most))
            (IsUnservedBelow self.now.proof.adversary configuration (suc most) missing large)) }
    {
        let Some(row) = self.adversary().find(rank) else {
            return Some(missing);
        };
        (row.left > most).then_some(large)
    }
}
