//! Laws of the documents by classes of boards, each the contract of a function without a body.

ghost use Rattle.std.specs.Prelude.{◌≡◌, ◌↔◌, ◌-◌, ◌*◌, ◌≤◌, ◌<◌, ℕ, List, length};
ghost use Rattle.board_text.specs.PlainBoard.{PlainBoard, IsConfiguration, places};
ghost use Rattle.classes.specs.Numbers.{class_count, ways};
ghost use Rattle.positions.specs.Claim.{Holds};
ghost use Rattle.positions.specs.Value.{HasValue};
ghost use Rattle.positions.specs.declared.claim.Claim.{Claim as ClaimData};
ghost use Rattle.positions.specs.declared.value.Value.TheVariants.{Finite};
ghost use Rattle.proof_text.specs.Proof.{PlainProof, IsClaim};
ghost use Rattle.proof_text.specs.Documents.{IsClassProof};
ghost use Rattle.proof_text.specs.ProofText.{class_text};
ghost use Rattle.proof_text.specs.Positions.{class_positions};
ghost use Rattle.proof_text.specs.Rules.{BreaksNoRule};
ghost use Rattle.strategies.specs.ClassDocument.{IsClassDocumentOf, FitsFormat};

use proof_text::{MAX_CLASS_ROWS, MAX_TURNS};

/// The document by classes of a board breaks no rule of checking.
pub fn class_documents_break_no_rule()
    ensures { (board : PlainBoard) → (proof : PlainProof) → IsConfiguration board board.start
        → IsClassDocumentOf board proof → BreaksNoRule (class_positions board.labels) board proof }
{}

/// The document by classes of a board is one as the format has it, if it fits there. It does if the
/// board has at most `MAX_CLASS_ROWS` classes; and also if its claim fits, as it does if the board
/// has at most `MAX_TURNS` gaps, and the text has at most eight bytes for each of `MAX_CLASS_ROWS`
/// rows.
pub fn class_documents_have_the_form()
    ensures form { (board : PlainBoard) → (proof : PlainProof)
        → IsConfiguration board board.start → IsClassDocumentOf board proof
        → FitsFormat proof → IsClassProof board proof }
    ensures few { (board : PlainBoard) → (proof : PlainProof)
        → IsConfiguration board board.start → IsClassDocumentOf board proof
        → class_count board ≤ MAX_CLASS_ROWS → FitsFormat proof }
    ensures claim { (board : PlainBoard) → (proof : PlainProof)
        → IsConfiguration board board.start → IsClassDocumentOf board proof
        → ways (board.pebbles - 1) (places board) ≤ MAX_TURNS → IsClaim proof.claim }
    ensures short { (board : PlainBoard) → (proof : PlainProof) → IsClassDocumentOf board proof
        → IsClaim proof.claim → length (class_text board proof) ≤ 8 * MAX_CLASS_ROWS
        → FitsFormat proof }
{}

/// Each board has a document by classes.
pub fn each_board_has_a_class_document()
    ensures { (board : PlainBoard) → IsConfiguration board board.start
        → (proof : PlainProof) × IsClassDocumentOf board proof }
{}

/// A board has one document by classes at most.
pub fn one_class_document_of_a_board()
    ensures { (board : PlainBoard) → (first second : PlainProof) → IsClassDocumentOf board first
        → IsClassDocumentOf board second → first ≡ second }
{}

/// A finite value of a configuration is less than the number of gaps of its board: of classes of
/// all pebbles but one.
pub fn finite_values_are_less_than_the_number_of_gaps()
    ensures { (board : PlainBoard) → (configuration : List ℕ) → (number : ℕ)
        → IsConfiguration board configuration → HasValue board configuration (Finite number)
        → number < ways (board.pebbles - 1) (places board) }
{}

/// The rules of checking by classes are sound and complete: on a board of at most `MAX_CLASS_ROWS`
/// classes a claim holds of the start exactly if some document by classes breaks no rule and makes
/// it.
pub fn claims_hold_where_class_documents_show_them()
    ensures { (board : PlainBoard) → (claim : ClaimData) → IsConfiguration board board.start
        → class_count board ≤ MAX_CLASS_ROWS → IsClaim claim → Holds board claim
        ↔ ((proof : PlainProof) × IsClassProof board proof
        × BreaksNoRule (class_positions board.labels) board proof
        × (proof.claim ≡ claim)) }
{}
