//! The labeller's rows of a document with arranged places, checked.

ghost use Rattle.std.specs.Prelude.{◌≡◌, ◌<◌, ℕ, List, MatchOption};
ghost use Rattle.board_text.specs.PlainBoard.{IsConfiguration};
ghost use Rattle.proof_text.specs.Rules as rules;
ghost use Rattle.proof_text.specs.Rules.{MeetsRequest, MeetsRequests, Serves};
ghost use Rattle.proof_text.specs.Arranged.{document_number};
ghost use Rattle.proof_text.specs.ClassProof.{class_answer_row};
ghost use Rattle.proof_check.specs.Refusals.{IsWrongAnswer, IsWrongAt, IsWrongStart};
ghost use Rattle.proof_check.specs.Inside.ClassChecker.{IsClassAnswering, IsClassReady};
ghost use Rattle.proof_check.specs.Inside.ClassChecker.{document_of, positions_for, refusals_for};
ghost use Rattle.proof_check.specs.Inside.FoundRow.{IsUnservedFor};

use crate::checked_row::CheckedRow;
use crate::class_checking::ClassChecker;
use crate::class_fault::ClassFault;
use crate::row_numbers::{find, row_number};
use crate::turns::{after_one, wanted_of};
use positions::{Side, Turns, is_legal};
use proof_text::LabellerClassRow;

impl<'a> CheckedRow<ClassChecker<'a>, ClassFault> for LabellerClassRow {
    ghost is_ready = { λ c row. IsClassAnswering c row };

    ghost meets = { λ c row. MeetsRequests (positions_for c) c.board.now (document_of c).labeller
        (class_answer_row c.board.now row) };

    ghost is_wrong = { λ c row. IsWrongAnswer (refusals_for c) c.board.now
        (document_of c).labeller (class_answer_row c.board.now row) };

    /// The fault of the row's first faulty pebble, if it has one.
    fn fault(&self, checker: &ClassChecker<'a>) -> Option<ClassFault> {
        let board = checker.board;
        let at = row_number(board, self);
        for pebble in 0..board.pebbles() {
            if let Some(fault) = answer_fault(checker, self, at, pebble) {
                return Some(fault);
            }
        }
        None
    }
}

/// The fault of the answer of `row`, whose number is `at`, to a request of `pebble`, if it has one.
fn answer_fault(
    checker: &ClassChecker<'_>,
    row: &LabellerClassRow,
    at: u64,
    pebble: u8,
) -> Option<ClassFault>
    requires row { IsClassAnswering checker.now row.now }
    requires at { at ≡ document_number checker.now.board.now.labels (class_answer_row
        checker.now.board.now row.now).at }
    requires pebble { pebble < checker.now.board.now.pebbles }
    ensures { MatchOption result
        (MeetsRequest (positions_for checker.now) checker.now.board.now
        (document_of checker.now).labeller (class_answer_row checker.now.board.now row.now) pebble)
        (IsWrongAt (refusals_for checker.now) checker.now.board.now
        (document_of checker.now).labeller (class_answer_row checker.now.board.now row.now)
        pebble) }
{
    let board = checker.board;
    let pebbles = board.pebbles() as usize;
    let label = row.take[pebble as usize];
    if !is_legal(board, &row.at[..pebbles], pebble, label) {
        return Some(ClassFault::IllegalAnswer { at, pebble });
    }
    let missing = ClassFault::Unlisted {
        side: Side::Labeller,
        at,
        turn: pebble as u16,
    };
    let short = ClassFault::TooSmall { at, pebble };
    let result = checker
        .alike
        .order_after(board, &row.at[..pebbles], pebble, label);
    turns_fault(checker, result, after_one(row.turns), missing, short)
}

/// The fault of the number at the start in the labeller's rows, if it has one.
pub(crate) fn start_fault(checker: &ClassChecker<'_>) -> Option<ClassFault>
    requires { IsClassReady checker.now }
    ensures start { IsConfiguration checker.now.board.now checker.now.board.now.start }
    ensures fault { MatchOption result
        (Serves (document_of checker.now).labeller
        ((positions_for checker.now).normal checker.now.board.now.start)
        (rules.wanted_of checker.now.proof.now.claim))
        (IsWrongStart (refusals_for checker.now) checker.now.board.now (document_of checker.now)) }
{
    let side = Side::Labeller;
    let missing = ClassFault::StartMissing { side };
    let short = ClassFault::StartNumber { side };
    let start = checker.alike.order(checker.board, checker.board.start());
    turns_fault(
        checker,
        start,
        wanted_of(checker.proof.claim),
        missing,
        short,
    )
}

/// The fault if the labeller's rows don't serve the `wanted` turns at the row of this `number` in
/// the order of documents: `missing` if there is none, `short` if it has too few turns.
fn turns_fault(
    checker: &ClassChecker<'_>,
    number: u64,
    wanted: Turns,
    missing: ClassFault,
    short: ClassFault,
) -> Option<ClassFault>
    requires ready { IsClassReady checker.now }
    ensures { (places : List ℕ) → IsConfiguration checker.now.board.now places
        → number ≡ document_number checker.now.board.now.labels places
        → MatchOption result
        (Serves (document_of checker.now).labeller places wanted)
        (IsUnservedFor (document_of checker.now).labeller places wanted missing short) }
{
    if wanted == Turns::Count(0) {
        return None;
    }
    let Some(row) = find(
        checker.board,
        &checker.proof.labeller,
        &checker.numbers.labeller,
        number,
    ) else {
        return Some(missing);
    };
    (row.turns < wanted).then_some(short)
}
