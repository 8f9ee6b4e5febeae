//! Laws of documents by classes, each the contract of a function without a body.

ghost use Rattle.std.specs.Prelude.{◌≡◌, ℕ, List};
ghost use Rattle.board_text.specs.PlainBoard.{PlainBoard, IsConfiguration};
ghost use Rattle.positions.specs.Claim.{Holds, HoldsAt};
ghost use Rattle.classes.specs.Classes.{class_of};
ghost use Rattle.proof_text.specs.Documents.{IsClassProof};
ghost use Rattle.proof_text.specs.Positions.{class_positions};
ghost use Rattle.proof_text.specs.Proof.{PlainProof};
ghost use Rattle.proof_text.specs.Rules.{BreaksNoRule};
ghost use Rattle.proof_text.specs.Arranged.{arranged_at, document_number};
ghost use Rattle.proof_check.specs.ClassFaults.{IsFirstClassFault};
ghost use Rattle.proof_check.specs.PositionTables.{ShowsOver};
ghost use Rattle.proof_check.specs.declared.class_fault.ClassFault.{ClassFault as Fault};

/// The rows of a document by classes that breaks no rule show its claim, as tables that are read by
/// arranged places, and it holds of the start, and of each configuration of the start's class.
pub fn class_rules_show()
    ensures tables { (board : PlainBoard) → (proof : PlainProof) → IsClassProof board proof
        → BreaksNoRule (class_positions board.labels) board proof
        → ShowsOver (class_positions board.labels) board proof.labeller proof.adversary
        proof.claim }
    ensures start { (board : PlainBoard) → (proof : PlainProof) → IsConfiguration board board.start
        → BreaksNoRule (class_positions board.labels) board proof → Holds board proof.claim }
    ensures each { (board : PlainBoard) → (proof : PlainProof) → (configuration : List ℕ)
        → IsConfiguration board board.start → IsConfiguration board configuration
        → class_of configuration ≡ class_of board.start
        → BreaksNoRule (class_positions board.labels) board proof
        → HoldsAt board configuration proof.claim }
{}

/// A document by classes that breaks no rule has no fault.
pub fn unbroken_class_rules_leave_no_fault()
    ensures { (board : PlainBoard) → (proof : PlainProof) → (fault : Fault)
        → BreaksNoRule (class_positions board.labels) board proof
        → IsFirstClassFault board proof fault → ⊥ }
{}

/// A document by classes has one fault at most.
pub fn one_class_fault()
    ensures { (board : PlainBoard) → (proof : PlainProof) → (fault : Fault) → (other : Fault)
        → IsFirstClassFault board proof fault → IsFirstClassFault board proof other
        → fault ≡ other }
{}

/// The places of a configuration are those of its number in the order of documents. So a row that a
/// fault names by its number is the row with the places that are written for it.
pub fn classes_are_told_by_their_numbers()
    ensures { (board : PlainBoard) → (at : List ℕ) → IsConfiguration board at
        → arranged_at board (document_number board.labels at) ≡ at }
{}
