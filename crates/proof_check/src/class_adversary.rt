//! The adversary's rows of a document with arranged places, checked.

ghost use Rattle.std.specs.Prelude.{◌≡◌, ◌<◌, ℕ, List, suc, MatchOption, Contains};
ghost use Rattle.board_text.specs.PlainBoard.{IsConfiguration};
ghost use Rattle.positions.specs.Game.{Legal};
ghost use Rattle.proof_text.specs.Positions as positions_of;
ghost use Rattle.proof_text.specs.Rules.{IsListedBelow, MeetsAnswer, MeetsAnswers, StartIsBelow};
ghost use Rattle.proof_text.specs.Arranged.{document_number};
ghost use Rattle.proof_text.specs.ClassProof.{class_request_row};
ghost use Rattle.proof_check.specs.Refusals.{IsWrongAfter, IsWrongBound, IsWrongRequest};
ghost use Rattle.proof_check.specs.Inside.ClassChecker.{IsClassReady, IsClassRequesting};
ghost use Rattle.proof_check.specs.Inside.ClassChecker.{document_of, positions_for, refusals_for};
ghost use Rattle.proof_check.specs.Inside.FoundRow.{IsUnservedBelow};

use crate::checked_row::CheckedRow;
use crate::class_checking::ClassChecker;
use crate::class_fault::ClassFault;
use crate::row_numbers::{find, row_number, row_places};
use board_text::Board;
use positions::{Claim, Side, legal_labels};
use proof_text::AdversaryClassRow;

impl<'a> CheckedRow<ClassChecker<'a>, ClassFault> for AdversaryClassRow {
    ghost is_ready = { λ c row. IsClassRequesting c row };

    ghost meets = { λ c row. MeetsAnswers (positions_for c) c.board.now (document_of c).adversary
        (class_request_row c.board.now row) };

    ghost is_wrong = { λ c row. IsWrongRequest (refusals_for c) c.board.now
        (document_of c).adversary (class_request_row c.board.now row) };

    /// The fault of the row's first faulty label, if it has one.
    fn fault(&self, checker: &ClassChecker<'a>) -> Option<ClassFault> {
        let board = checker.board;
        let at = row_number(board, self);
        let pebble = asked_pebble(board, self);
        let legal = legal_labels(board, row_places(board, self), pebble);
        let mut answers = legal.walk();
        while let Some(label) = answers.take_next() {
            if let Some(fault) = label_fault(checker, self, at, pebble, label) {
                return Some(fault);
            }
        }
        None
    }
}

/// The first pebble of `row` on the place that is asked.
fn asked_pebble(board: &Board, row: &AdversaryClassRow) -> u8
    requires { Contains (class_request_row board.now row.now).at row.now.ask }
    ensures asked { result ≡ positions_of.asked_pebble (class_request_row board.now row.now) }
    ensures is_pebble { result < board.now.pebbles }
{
    for pebble in 0..board.pebbles() {
        if row.at[pebble as usize] == row.ask {
            return pebble;
        }
    }
    0
}

/// The fault of `row`, whose number is `at`, at the legal answer `label` to its request of
/// `pebble`, if it has one.
fn label_fault(
    checker: &ClassChecker<'_>,
    row: &AdversaryClassRow,
    at: u64,
    pebble: u8,
    label: u16,
) -> Option<ClassFault>
    requires row { IsClassRequesting checker.now row.now }
    requires at { at ≡ document_number checker.now.board.now.labels (class_request_row
        checker.now.board.now row.now).at }
    requires pebble { pebble ≡ positions_of.asked_pebble (class_request_row checker.now.board.now
        row.now) }
    requires is_pebble { pebble < checker.now.board.now.pebbles }
    requires legal { Legal checker.now.board.now (class_request_row checker.now.board.now
        row.now).at pebble label }
    ensures { MatchOption result
        (MeetsAnswer (positions_for checker.now) checker.now.board.now
        (document_of checker.now).adversary (class_request_row checker.now.board.now row.now) label)
        (IsWrongAfter (refusals_for checker.now) (document_of checker.now).adversary
        (class_request_row checker.now.board.now row.now) label) }
{
    if row.left == 0 {
        return Some(ClassFault::NotStuck { at, label });
    }
    let missing = ClassFault::Unlisted {
        side: Side::Adversary,
        at,
        turn: label,
    };
    let large = ClassFault::TooLarge { at, label };
    let pebbles = checker.board.pebbles() as usize;
    let result = checker
        .alike
        .order_after(checker.board, &row.at[..pebbles], pebble, label);
    number_fault(checker, result, row.left - 1, missing, large)
}

/// The fault of the number at the start in the adversary's rows, if it has one. Only a
/// claim that bounds the value from above can have it.
pub(crate) fn bound_fault(checker: &ClassChecker<'_>) -> Option<ClassFault>
    requires { IsClassReady checker.now }
    ensures { MatchOption result
        (StartIsBelow (document_of checker.now).adversary
        ((positions_for checker.now).normal checker.now.board.now.start)
        checker.now.proof.now.claim)
        (IsWrongBound (refusals_for checker.now) checker.now.board.now (document_of checker.now)) }
{
    let (Claim::Exactly(most) | Claim::AtMost(most)) = checker.proof.claim else {
        return None;
    };
    let side = Side::Adversary;
    let missing = ClassFault::StartMissing { side };
    let large = ClassFault::StartNumber { side };
    let start = checker.alike.order(checker.board, checker.board.start());
    number_fault(checker, start, most, missing, large)
}

/// The fault if no row of the adversary that has this `number` in the order of documents has at
/// most `most` answers left: `missing` if none has the number, `large` if its row has more.
fn number_fault(
    checker: &ClassChecker<'_>,
    number: u64,
    most: u32,
    missing: ClassFault,
    large: ClassFault,
) -> Option<ClassFault>
    requires ready { IsClassReady checker.now }
    ensures { (places : List ℕ) → IsConfiguration checker.now.board.now places
        → number ≡ document_number checker.now.board.now.labels places
        → MatchOption result
        (IsListedBelow (document_of checker.now).adversary places (suc most))
        (IsUnservedBelow (document_of checker.now).adversary places (suc most) missing large) }
{
    let Some(row) = find(
        checker.board,
        &checker.proof.adversary,
        &checker.numbers.adversary,
        number,
    ) else {
        return Some(missing);
    };
    (row.left > most).then_some(large)
}
