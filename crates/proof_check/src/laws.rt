//! Laws over the rules of checking, each the contract of a function without a body.

ghost use Rattle.std.specs.Prelude.{◌≡◌, ◌≢◌};
ghost use Rattle.board_text.specs.PlainBoard.{PlainBoard};
ghost use Rattle.positions.specs.Claim.{Shows};
ghost use Rattle.proof_text.specs.Positions.{configuration_positions};
ghost use Rattle.proof_text.specs.Proof.{PlainProof};
ghost use Rattle.proof_text.specs.Documents.{IsProof};
ghost use Rattle.proof_text.specs.Rules.{BreaksNoRule};
ghost use Rattle.proof_check.specs.CheckFaults.{IsCheckFault};
ghost use Rattle.proof_check.specs.declared.fault.CheckFault.{CheckFault as Fault};
ghost use Rattle.proof_check.specs.declared.fault.CheckFault.TheVariants.{Memory as OutOfMemory};

/// The rows of a document that breaks no rule show its claim.
#[tactic(auto, using(crate::proofs::ShownClaims::shows))]
pub fn rules_show()
    ensures { (board : PlainBoard) → (proof : PlainProof) → IsProof board proof
        → BreaksNoRule configuration_positions board proof
        → Shows board proof.labeller proof.adversary proof.claim }
{}

/// A document that breaks no rule has no fault but out of memory.
pub fn unbroken_rules_leave_no_fault()
    ensures { (board : PlainBoard) → (proof : PlainProof) → (fault : Fault)
        → BreaksNoRule configuration_positions board proof → IsCheckFault board proof fault
        → fault ≡ OutOfMemory }
{}

/// A document has one fault at most, apart from out of memory.
pub fn one_check_fault()
    ensures { (board : PlainBoard) → (proof : PlainProof) → (fault : Fault) → (other : Fault)
        → fault ≢ OutOfMemory → other ≢ OutOfMemory
        → IsCheckFault board proof fault → IsCheckFault board proof other → fault ≡ other }
{}
