//! Laws of the texts of documents, each the contract of a function without a body.

ghost use Rattle.std.specs.Prelude.{◌≡◌, ◌≢◌, ℕ, ◌<◌, List, slice_index};
ghost use Rattle.board_text.specs.PlainBoard.{PlainBoard, IsBoard};
ghost use Rattle.positions.specs.Ranks.{configurations};
ghost use Rattle.proof_text.specs.Documents.{IsProof, IsClassProof, IsSymmetryProof, AreMaps};
ghost use Rattle.proof_text.specs.Proof.{PlainProof, IsPadded, answer_row, request_row};
ghost use Rattle.proof_text.specs.ProofFaults.{HasProofFault, HasClassTextFault};
ghost use Rattle.proof_text.specs.ProofFaults.{HasSymmetryTextFault, HasSymmetriesFault};
ghost use Rattle.proof_text.specs.ProofText.{proof_text, class_text, symmetry_text};
ghost use Rattle.proof_text.specs.ProofText.{symmetries_text};
ghost use Rattle.proof_text.specs.SymmetryProof.{PlainSymmetryProof};
ghost use Rattle.proof_text.specs.declared.fault.ProofKind.{ProofKind as Kind};
ghost use Rattle.proof_text.specs.declared.fault.ProofKind.TheVariants.{Memory as OutOfMemory};
ghost use Rattle.proof_text.specs.declared.proof.LabellerRow.{LabellerRow as LabellerRowData};
ghost use Rattle.proof_text.specs.declared.proof.AdversaryRow.{AdversaryRow as AdversaryRowData};

use crate::class_proof::MAX_CLASS_ROWS;
use crate::proof::MAX_TURNS;
use crate::symmetry_proof::MAX_MAPS;

/// For one board a text is that of one document at most. So the text that is printed for a
/// document is read back as that document.
#[tactic(auto, using(crate::proofs::OneDocument::one_document))]
pub fn one_document()
    ensures { (board : PlainBoard) → (first : PlainProof) → (second : PlainProof) → IsBoard board
        → IsProof board first
        → IsProof board second
        → proof_text board first ≡ proof_text board second → first ≡ second }
{}

/// No line of a document's text has a fault but out of memory.
#[tactic(auto, using(crate::proofs::OneDocument::no_fault))]
pub fn documents_have_no_fault()
    ensures { (board : PlainBoard) → (document : PlainProof) → (line : ℕ) → (kind : Kind)
        → IsBoard board → IsProof board document
        → HasProofFault board (proof_text board document) line kind → kind ≡ OutOfMemory }
{}

/// For one board a text has one fault at most, apart from out of memory.
pub fn one_fault()
    ensures { (board : PlainBoard) → (text : List ℕ) → (line : ℕ) → (other_line : ℕ) → (kind : Kind)
        → (other_kind : Kind) → IsBoard board
        → kind ≢ OutOfMemory → other_kind ≢ OutOfMemory
        → HasProofFault board text line kind → HasProofFault board text other_line other_kind
        → (line ≡ other_line) × (kind ≡ other_kind) }
{}

/// For one board a text is that of one document by classes at most. So the text that is printed for
/// a document is read back as that document.
#[tactic(auto, using(crate::proofs::OneDocument::one_class_document))]
pub fn one_class_document()
    ensures { (board : PlainBoard) → (first : PlainProof) → (second : PlainProof) → IsBoard board
        → IsClassProof board first
        → IsClassProof board second
        → class_text board first ≡ class_text board second → first ≡ second }
{}

/// No line of the text of a document by classes has a fault but out of memory.
#[tactic(auto, using(crate::proofs::OneDocument::no_class_text_fault))]
pub fn class_documents_have_no_fault()
    ensures { (board : PlainBoard) → (document : PlainProof) → (line : ℕ) → (kind : Kind)
        → IsBoard board → IsClassProof board document
        → HasClassTextFault board (class_text board document) line kind → kind ≡ OutOfMemory }
{}

/// For one board a text has one fault at most, apart from out of memory.
pub fn one_class_text_fault()
    ensures { (board : PlainBoard) → (text : List ℕ) → (line : ℕ) → (other_line : ℕ) → (kind : Kind)
        → (other_kind : Kind) → IsBoard board
        → kind ≢ OutOfMemory → other_kind ≢ OutOfMemory
        → HasClassTextFault board text line kind
        → HasClassTextFault board text other_line other_kind
        → (line ≡ other_line) × (kind ≡ other_kind) }
{}

/// For one board a text is that of one document up to symmetries at most. So the text that is
/// printed for a document is read back as that document.
#[tactic(auto, using(crate::proofs::OneDocument::one_symmetry_document))]
pub fn one_symmetry_document()
    ensures { (board : PlainBoard) → (first : PlainSymmetryProof) → (second : PlainSymmetryProof)
        → IsBoard board → IsSymmetryProof board first → IsSymmetryProof board second
        → symmetry_text board first ≡ symmetry_text board second → first ≡ second }
{}

/// No line of the text of a document up to symmetries has a fault but out of memory.
pub fn symmetry_documents_have_no_fault()
    ensures { (board : PlainBoard) → (document : PlainSymmetryProof) → (line : ℕ) → (kind : Kind)
        → IsBoard board → IsSymmetryProof board document
        → HasSymmetryTextFault board (symmetry_text board document) line kind
        → kind ≡ OutOfMemory }
{}

/// For one board a text has one fault at most, apart from out of memory.
pub fn one_symmetry_text_fault()
    ensures { (board : PlainBoard) → (text : List ℕ) → (line : ℕ) → (other_line : ℕ) → (kind : Kind)
        → (other_kind : Kind) → IsBoard board
        → kind ≢ OutOfMemory → other_kind ≢ OutOfMemory
        → HasSymmetryTextFault board text line kind
        → HasSymmetryTextFault board text other_line other_kind
        → (line ≡ other_line) × (kind ≡ other_kind) }
{}

/// No line of the text of symmetries by themselves has a fault but out of memory.
pub fn symmetries_have_no_fault()
    ensures { (board : PlainBoard) → (maps : List (List ℕ)) → (line : ℕ) → (kind : Kind)
        → IsBoard board → AreMaps board.labels maps
        → HasSymmetriesFault board (symmetries_text board.labels maps) line kind
        → kind ≡ OutOfMemory }
{}

/// For one board a text of symmetries by themselves has one fault at most, apart from out of
/// memory.
pub fn one_symmetries_fault()
    ensures { (board : PlainBoard) → (text : List ℕ) → (line : ℕ) → (other_line : ℕ) → (kind : Kind)
        → (other_kind : Kind) → IsBoard board
        → kind ≢ OutOfMemory → other_kind ≢ OutOfMemory
        → HasSymmetriesFault board text line kind
        → HasSymmetriesFault board text other_line other_kind
        → (line ≡ other_line) × (kind ≡ other_kind) }
{}

/// Rows whose plain forms, with configurations for ranks, are the same are the same in each field.
pub fn one_row_of_a_rank()
    ensures labeller { (board : PlainBoard) → (first : LabellerRowData) → (second : LabellerRowData)
        → first.at < configurations board → second.at < configurations board → IsPadded board first
        → IsPadded board second
        → answer_row board first ≡ answer_row board second
        → (first.at ≡ second.at) × (first.turns ≡ second.turns)
        × ((pebble : ℕ) → slice_index first.take pebble ≡ slice_index second.take pebble) }
    ensures adversary { (board : PlainBoard) → (first : AdversaryRowData)
        → (second : AdversaryRowData)
        → first.at < configurations board → second.at < configurations board
        → request_row board first ≡ request_row board second → first ≡ second }
{}

/// The greatest number of a document, the most rows of a section of one by classes, and the most
/// maps of one up to symmetries.
/// CONTRIBUTING.md lists what else says these numbers.
pub fn limits()
    ensures turns { MAX_TURNS ≡ 1000000000 }
    ensures class_rows { MAX_CLASS_ROWS ≡ 16777216 }
    ensures maps { MAX_MAPS ≡ 64 }
{}
