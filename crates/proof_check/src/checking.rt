//! The order of checking a document.

ghost use Rattle.std.specs.Prelude.{◌≡◌, ◌≤◌, OnOk, IfOk, IfErr, MatchOption};
ghost use Rattle.positions.specs.Ranks.{configurations};
ghost use Rattle.positions.specs.Claim.{Shows};
ghost use Rattle.proof_text.specs.Documents.{IsDocument};
ghost use Rattle.proof_text.specs.Positions.{configuration_positions};
ghost use Rattle.proof_text.specs.Proof.{plain_proof, answer_rows, request_rows};
ghost use Rattle.proof_text.specs.Rules.{BreaksNoRule};
ghost use Rattle.proof_check.specs.CheckFaults.{IsCheckFault, NamesRanks};
ghost use Rattle.proof_check.specs.declared.fault.CheckFault.TheVariants.{Memory as OutOfMemory};

use crate::checked_row::first_fault;
use crate::checker::Checker;
use crate::fault::CheckFault;
use board_text::Board;
use positions::MAX_CONFIGURATIONS;
use proof_text::{Claim, Proof};
use std::alloc::Global;
use std::thread::Threads;

/// A claim that a document has shown.
#[derive(Clone, Copy, Debug, PartialEq, Eq)]
pub struct Shown {
    pub claim: Claim,
}

/// The claim of `proof`, if its rows show it, or the first fault in the order of checking.
pub fn check(
    rt: &(impl Threads + Sync),
    alloc: Global,
    board: &Board,
    proof: &Proof,
) -> Result<Shown, CheckFault>
    requires few { configurations board.now ≤ MAX_CONFIGURATIONS }
    requires document { IsDocument board.now proof.now }
    // The claim shown is the document's.
    ensures claim { IfOk result (λ shown. shown.claim ≡ proof.now.claim) }
    // Its rows show it.
    ensures shows { OnOk result (Shows board.now (answer_rows board.now proof.now.labeller.items)
        (request_rows board.now proof.now.adversary.items) proof.now.claim) }
    // Only a document that breaks no rule is accepted.
    ensures rules { OnOk result
        (BreaksNoRule configuration_positions board.now (plain_proof board.now proof.now)) }
    // Each that breaks none is accepted, unless memory runs out.
    ensures accepts { BreaksNoRule configuration_positions board.now
        (plain_proof board.now proof.now)
        → IfErr result (λ fault. fault ≡ OutOfMemory) }
    // The fault is the first in the order of checking, or memory ran out.
    ensures fault { IfErr result (λ fault. IsCheckFault board.now
        (plain_proof board.now proof.now) fault) }
    // A fault names rows by ranks of the board.
    ensures named { IfErr result (NamesRanks board.now) }
{
    let Ok(checker) = Checker::new(alloc, board, proof) else {
        return Err(CheckFault::Memory);
    };
    match checker.fault(rt) {
        Some(fault) => Err(fault),
        None => Ok(Shown { claim: proof.claim }),
    }
}

impl Checker<'_> {
    /// The first fault of the document in the order of checking, if there is one.
    fn fault(&self, rt: &(impl Threads + Sync)) -> Option<CheckFault>
        ensures { MatchOption result
            (BreaksNoRule configuration_positions self.now.board self.now.proof)
            (λ fault. IsCheckFault self.now.board self.now.proof fault) }
    {
        if let Some(fault) = self.start_fault() {
            return Some(fault);
        }
        if let Some(fault) = self.bound_fault() {
            return Some(fault);
        }
        if let Some(fault) = first_fault(rt, self, self.labeller().rows()) {
            return Some(fault);
        }
        first_fault(rt, self, self.adversary().rows())
    }
}
