//! Laws of documents for one side alone, each the contract of a function without a body.

ghost use Rattle.std.specs.Prelude.{◌≡◌, ℕ, List, Option};
ghost use Rattle.std.specs.List.{All};
ghost use Rattle.board_text.specs.PlainBoard.{PlainBoard, IsConfiguration};
ghost use Rattle.positions.specs.Claim.{Holds, Shows, claim_of};
ghost use Rattle.positions.specs.declared.side.Side.{Side as SideData};
ghost use Rattle.positions.specs.declared.value.Value.{Value as ValueData};
ghost use Rattle.proof_check.specs.SymmetryFaults.{BreaksNoRuleUpTo};
ghost use Rattle.proof_text.specs.Documents.{AreMaps, IsClassProof, IsProof, IsSymmetryProof};
ghost use Rattle.proof_text.specs.Positions.{Positions};
ghost use Rattle.proof_text.specs.Proof.{PlainProof};
ghost use Rattle.proof_text.specs.Rules.{BreaksNoRule};
ghost use Rattle.proof_text.specs.SymmetryProof.{PlainSymmetryProof};
ghost use Rattle.strategies.specs.ClassDocument.{FitsFormat, IsClassDocumentOf};
ghost use Rattle.strategies.specs.Sides.{HasStrategy, document_for};
ghost use Rattle.strategies.specs.SymmetricDocument.{IsSymmetryDocumentOf, symmetric_document_for};
ghost use Rattle.symmetries.specs.Symmetries.{IsSymmetry};

/// The rows of one side of a document show the part of its claim that the document for that side
/// makes, if its claim is on a value for which the side has a strategy. They break no rule of
/// checking, over positions of any kind and up to symmetries, if both sides' rows break none, and
/// are as the format has them.
pub fn one_side_shows_its_part()
    ensures shows { (board : PlainBoard) → (proof : PlainProof) → (value : ValueData)
        → proof.claim ≡ claim_of value → (side : Option SideData) → HasStrategy side value
        → Shows board proof.labeller proof.adversary proof.claim
        → Shows board (document_for side proof).labeller (document_for side proof).adversary
        (document_for side proof).claim }
    ensures holds { (board : PlainBoard) → (proof : PlainProof) → (value : ValueData)
        → proof.claim ≡ claim_of value → (side : Option SideData) → Holds board proof.claim
        → Holds board (document_for side proof).claim }
    ensures rules { (positions : Positions) → (board : PlainBoard) → (proof : PlainProof)
        → (value : ValueData) → proof.claim ≡ claim_of value → (side : Option SideData)
        → HasStrategy side value → BreaksNoRule positions board proof
        → BreaksNoRule positions board (document_for side proof) }
    ensures form { (board : PlainBoard) → (proof : PlainProof) → (value : ValueData)
        → proof.claim ≡ claim_of value → (side : Option SideData) → HasStrategy side value
        → IsProof board proof → IsProof board (document_for side proof) }
    ensures class_form { (board : PlainBoard) → (proof : PlainProof) → (value : ValueData)
        → proof.claim ≡ claim_of value → (side : Option SideData) → HasStrategy side value
        → IsConfiguration board board.start → IsClassDocumentOf board proof
        → FitsFormat (document_for side proof)
        → IsClassProof board (document_for side proof) }
    ensures symmetry_rules { (board : PlainBoard) → (proof : PlainSymmetryProof)
        → (value : ValueData) → proof.rows.claim ≡ claim_of value → (side : Option SideData)
        → HasStrategy side value → BreaksNoRuleUpTo board proof
        → BreaksNoRuleUpTo board (symmetric_document_for side proof) }
    ensures symmetry_form { (board : PlainBoard) → (proof : PlainSymmetryProof)
        → (value : ValueData) → proof.rows.claim ≡ claim_of value → (side : Option SideData)
        → HasStrategy side value → IsConfiguration board board.start → (maps : List (List ℕ))
        → AreMaps board.labels maps → All (IsSymmetry board) maps
        → IsSymmetryDocumentOf board maps proof → FitsFormat (document_for side proof.rows)
        → IsSymmetryProof board (symmetric_document_for side proof) }
{}
