//! Laws of the documents of boards, each the contract of a function without a body.

ghost use Rattle.std.specs.Prelude.{◌≡◌, ◌≤◌};
ghost use Rattle.board_text.specs.PlainBoard.{PlainBoard, IsBoard, IsConfiguration};
ghost use Rattle.positions.specs.Ranks.{configurations};
ghost use Rattle.positions.specs.Claim.{Shows, Holds};
ghost use Rattle.positions.specs.Table.{AnswerRow, RequestRow};
ghost use Rattle.positions.specs.Value.{HasValue};
ghost use Rattle.positions.specs.declared.value.Value.{Value as ValueData};
ghost use Rattle.proof_text.specs.Proof.{PlainProof};
ghost use Rattle.proof_text.specs.Documents.{IsProof};
ghost use Rattle.proof_text.specs.Positions.{configuration_positions};
ghost use Rattle.proof_text.specs.Rules.{BreaksNoRule};
ghost use Rattle.strategies.specs.Document.{IsDocumentOf};
ghost use Rattle.strategies.specs.PositionDocument.{IsLabellerRowOver, IsAdversaryRowOver};
ghost use Rattle.strategies.specs.Meaning.{Means};
ghost use Rattle.strategies.specs.Example.{small_board, small_document, lone_board, lone_document};

use positions::MAX_CONFIGURATIONS;

/// Each board has a document.
pub fn each_board_has_a_document()
    ensures { (board : PlainBoard) → IsConfiguration board board.start
        → (proof : PlainProof) × IsDocumentOf board proof }
{}

/// The claim of the document of a board holds.
#[tactic(auto, using(crate::proofs::KeptRules::claims_what_holds))]
pub fn documents_claim_what_holds()
    ensures { (board : PlainBoard) → (proof : PlainProof) → IsDocumentOf board proof
        → Holds board proof.claim }
{}

/// The rows of the document of a board show its claim.
#[tactic(auto, using(crate::proofs::ShownClaims::shows_claim))]
pub fn documents_show_their_claim()
    ensures { (board : PlainBoard) → (proof : PlainProof) → IsConfiguration board board.start
        → IsDocumentOf board proof
        → Shows board proof.labeller proof.adversary proof.claim }
{}

/// The document of a board means the value of its start.
#[tactic(auto, using(crate::proofs::Meanings::means_value))]
pub fn documents_mean_their_value()
    ensures { (board : PlainBoard) → (proof : PlainProof) → (value : ValueData)
        → IsConfiguration board board.start → IsDocumentOf board proof
        → HasValue board board.start value → Means board proof value }
{}

/// The document of a board breaks no rule of checking.
pub fn documents_break_no_rule()
    ensures { (board : PlainBoard) → (proof : PlainProof) → IsConfiguration board board.start
        → IsDocumentOf board proof
        → BreaksNoRule configuration_positions board proof }
{}

/// The document of a board with few configurations is one as the format has it.
pub fn documents_have_their_form()
    ensures { (board : PlainBoard) → (proof : PlainProof) → IsConfiguration board board.start
        → configurations board ≤ MAX_CONFIGURATIONS
        → IsDocumentOf board proof → IsProof board proof }
{}

/// A board has one document at most, and for each configuration there
/// is one row at most that its document may have.
pub fn one_document_of_a_board()
    ensures document { (board : PlainBoard) → (first : PlainProof) → (second : PlainProof)
        → IsDocumentOf board first → IsDocumentOf board second → first ≡ second }
    ensures labeller { (board : PlainBoard) → (start : ValueData) → (first : AnswerRow)
        → (second : AnswerRow)
        → IsLabellerRowOver configuration_positions board start first
        → IsLabellerRowOver configuration_positions board start second
        → first.at ≡ second.at → first ≡ second }
    ensures adversary { (board : PlainBoard) → (first : RequestRow) → (second : RequestRow)
        → IsAdversaryRowOver configuration_positions board first
        → IsAdversaryRowOver configuration_positions board second → first.at ≡ second.at
        → first ≡ second }
{}

/// Documents in full: one of a start with a finite value, and one of a start that lasts forever.
pub fn documents_of_small_boards()
    ensures finite { IsDocumentOf small_board small_document }
    ensures forever { IsDocumentOf lone_board lone_document }
    ensures boards { IsBoard small_board × IsBoard lone_board }
{}
