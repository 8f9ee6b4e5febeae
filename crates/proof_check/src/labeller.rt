//! The labeller's rows of a document, checked.

ghost use Rattle.std.specs.Prelude.{◌≡◌, ◌<◌, true, MatchOption};
ghost use Rattle.positions.specs.Position.{position_at};
ghost use Rattle.proof_text.specs.Positions.{configuration_positions};
ghost use Rattle.proof_text.specs.Proof.{answer_row};
ghost use Rattle.proof_text.specs.Rules as rules;
ghost use Rattle.proof_text.specs.Rules.{Serves, MeetsRequest, MeetsRequests};
ghost use Rattle.proof_check.specs.CheckFaults.{rank_refusals};
ghost use Rattle.proof_check.specs.Refusals.{IsWrongAnswer, IsWrongAt, IsWrongStart};
ghost use Rattle.proof_check.specs.Inside.Checker.{IsAnswering, HoldsAtRank};
ghost use Rattle.proof_check.specs.Inside.FoundRow.{IsUnservedFor};
ghost use Rattle.proof_check.specs.Inside.RowCounts.{count_of_turns};

use crate::checked_row::CheckedRow;
use crate::checker::Checker;
use crate::fault::CheckFault;
use crate::row_index::Counted;
use crate::turns::{after_one, count_of, least_count, wanted_of};
use positions::{LegalMoves, Side, Turns};
use proof_text::LabellerRow;

impl Counted for LabellerRow {
    ghost count = { λ row. count_of_turns row.turns };

    fn count(&self) -> u32 {
        count_of(self.turns)
    }
}

impl<'a> CheckedRow<Checker<'a>, CheckFault> for LabellerRow {
    ghost is_ready = { λ c row. IsAnswering c.board row };

    ghost meets = { λ c row. MeetsRequests configuration_positions c.board c.proof.labeller
        (answer_row c.board row) };

    ghost is_wrong = { λ c row. IsWrongAnswer (rank_refusals c.board) c.board c.proof.labeller
        (answer_row c.board row) };

    /// The fault of the row's first faulty pebble, if it has one.
    fn fault(&self, checker: &Checker<'a>) -> Option<CheckFault> {
        let moves = checker.moves(self.at);
        let left = after_one(self.turns);
        for pebble in 0..checker.pebbles() {
            if let Some(fault) = checker.answer_fault(self, &moves, left, pebble) {
                return Some(fault);
            }
        }
        None
    }
}

impl Checker<'_> {
    /// The fault of the answer of `row` to a request of `pebble`, if it has one. The `moves` are
    /// those from the row's configuration, and `left` are the turns that it leaves.
    fn answer_fault(
        &self,
        row: &LabellerRow,
        moves: &LegalMoves<'_>,
        left: Turns,
        pebble: u8,
    ) -> Option<CheckFault>
        requires row { IsAnswering self.now.board row.now }
        requires moves { moves.now ≡ position_at self.now.board row.now.at }
        requires left { left ≡ rules.one_less row.now.turns }
        requires pebble { pebble < self.now.board.pebbles }
        ensures { MatchOption result
            (MeetsRequest configuration_positions self.now.board self.now.proof.labeller
            (answer_row self.now.board row.now) pebble)
            (IsWrongAt (rank_refusals self.now.board) self.now.board self.now.proof.labeller
            (answer_row self.now.board row.now) pebble) }
    {
        let label = row.take[pebble as usize];
        if !moves.is_legal(pebble, label) {
            return Some(CheckFault::IllegalAnswer { at: row.at, pebble });
        }
        let result = moves.after(pebble, label);
        if self.serves(result, left) {
            return None;
        }
        let missing = CheckFault::Unlisted {
            side: Side::Labeller,
            at: row.at,
            turn: pebble as u16,
        };
        let short = CheckFault::TooSmall { at: row.at, pebble };
        self.turns_fault(result, left, missing, short)
    }

    /// The fault of the start's number in the labeller's rows, if it has one.
    pub(crate) fn start_fault(&self) -> Option<CheckFault>
        ensures { MatchOption result
            (Serves self.now.proof.labeller self.now.board.start
            (rules.wanted_of self.now.proof.claim))
            (IsWrongStart (rank_refusals self.now.board) self.now.board self.now.proof) }
    {
        let side = Side::Labeller;
        let missing = CheckFault::StartMissing { side };
        let short = CheckFault::StartNumber { side };
        self.turns_fault(self.start(), wanted_of(self.claim()), missing, short)
    }

    /// The fault if the labeller's rows don't serve the `wanted` turns at `rank`: `missing` if no
    /// row has the rank, `short` if its row has too few turns.
    #[cold]
    #[inline(never)]
    fn turns_fault(
        &self,
        rank: u32,
        wanted: Turns,
        missing: CheckFault,
        short: CheckFault,
    ) -> Option<CheckFault>
        ensures { HoldsAtRank self.now.board rank (λ configuration. MatchOption result
            (Serves self.now.proof.labeller configuration wanted)
            (IsUnservedFor self.now.proof.labeller configuration wanted missing short)) }
    {
        if wanted == Turns::Count(0) {
            return None;
        }
        let Some(row) = self.labeller().find(rank) else {
            return Some(missing);
        };
        (row.turns < wanted).then_some(short)
    }

    /// Whether the count of the row of `rank` shows that it serves the `wanted` turns, if any are.
    fn serves(&self, rank: u32, wanted: Turns) -> bool
        ensures { result ≡ true → HoldsAtRank self.now.board rank (λ configuration.
            Serves self.now.proof.labeller configuration wanted) }
    {
        least_count(wanted) <= self.labeller().count(rank)
    }
}
