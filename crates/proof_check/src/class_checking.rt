//! The order of checking a document with arranged places.

ghost use Rattle.std.specs.Prelude.{◌≡◌, ℕ, List, IsOk, OnOk, IfErr, MatchOption};
ghost use Rattle.board_text.specs.PlainBoard.{IsConfiguration};
ghost use Rattle.positions.specs.Claim.{Holds, HoldsAt};
ghost use Rattle.classes.specs.Classes.{class_of};
ghost use Rattle.proof_text.specs.Documents.{IsClassDocument};
ghost use Rattle.proof_text.specs.ClassProof.{plain_class_proof};
ghost use Rattle.proof_text.specs.Positions.{class_positions, normal_positions};
ghost use Rattle.proof_text.specs.Rules.{BreaksNoRule};
ghost use Rattle.symmetries.specs.Elements.{least_by};
ghost use Rattle.proof_check.specs.RowNumbers.{AreNumbersOfRows};
ghost use Rattle.proof_check.specs.ClassFaults.{IsFirstClassFault, NamesClass};
ghost use Rattle.proof_check.specs.Inside.ClassChecker.{refusals_by};
ghost use Rattle.proof_check.specs.Refusals.{IsFirstFault};

use crate::checked_row::first_fault;
use crate::class_adversary::bound_fault;
use crate::class_fault::ClassFault;
use crate::class_labeller::start_fault;
use crate::row_numbers::RowNumbers;
use board_text::Board;
use proof_text::ClassProof;
use std::thread::Threads;
use symmetries::Alike;

/// A board, and a document for it with arranged places, with the numbers of its rows. A row stands
/// for all places that are alike.
#[derive(Clone, Copy)]
pub(crate) struct ClassChecker<'a> {
    pub(crate) board: &'a Board,
    pub(crate) alike: &'a Alike,
    pub(crate) proof: &'a ClassProof,
    pub(crate) numbers: &'a RowNumbers,
}

/// Whether the rows of `proof`, which have these `numbers`, break no rule, or the first fault in
/// the order of checking. It takes no memory, and the board may have any number of classes.
pub fn check_classes(
    rt: &(impl Threads + Sync),
    board: &Board,
    proof: &ClassProof,
    numbers: &RowNumbers,
) -> Result<(), ClassFault>
    requires document { IsClassDocument board.now proof.now }
    requires numbers { AreNumbersOfRows board.now proof.now numbers.now }
    // The claim of an accepted document holds of the start.
    ensures holds { OnOk result (Holds board.now proof.now.claim) }
    // It holds of each configuration of the start's class.
    ensures each { OnOk result ((configuration : List ℕ) → IsConfiguration board.now configuration
        → class_of configuration ≡ class_of board.now.start
        → HoldsAt board.now configuration proof.now.claim) }
    // Only a document that breaks no rule is accepted.
    ensures rules { OnOk result (BreaksNoRule (class_positions board.now.labels) board.now
        (plain_class_proof board.now proof.now)) }
    // Each that breaks none is accepted.
    ensures accepts { BreaksNoRule (class_positions board.now.labels) board.now
        (plain_class_proof board.now proof.now)
        → IsOk result }
    // The fault is the first in the order of checking.
    ensures fault { IfErr result (IsFirstClassFault board.now
        (plain_class_proof board.now proof.now)) }
    // A row that it names has the number of places of the board.
    ensures named { IfErr result (NamesClass board.now) }
{
    let alike = Alike::by_classes(board);
    match document_fault(rt, board, &alike, proof, numbers) {
        Some(fault) => Err(fault),
        None => Ok(()),
    }
}

/// The first fault of `proof`, whose rows stand for the places that are `alike`, in the order of
/// checking, if there is one.
pub(crate) fn document_fault(
    rt: &(impl Threads + Sync),
    board: &Board,
    alike: &Alike,
    proof: &ClassProof,
    numbers: &RowNumbers,
) -> Option<ClassFault>
    requires alike { alike.now.labels ≡ board.now.labels }
    requires document { IsClassDocument board.now proof.now }
    requires numbers { AreNumbersOfRows board.now proof.now numbers.now }
    ensures fault { MatchOption result
        (BreaksNoRule (normal_positions (least_by board.now.labels alike.now.group)) board.now
        (plain_class_proof board.now proof.now))
        (IsFirstFault (refusals_by board.now alike.now.group) board.now
        (plain_class_proof board.now proof.now)) }
    ensures start { IsConfiguration board.now board.now.start }
{
    let checker = ClassChecker {
        board,
        alike,
        proof,
        numbers,
    };
    if let Some(fault) = start_fault(&checker) {
        return Some(fault);
    }
    if let Some(fault) = bound_fault(&checker) {
        return Some(fault);
    }
    if let Some(fault) = first_fault(rt, &checker, &proof.labeller) {
        return Some(fault);
    }
    first_fault(rt, &checker, &proof.adversary)
}
