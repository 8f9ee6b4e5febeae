//! The laws of claims and documents, each the contract of a function without a body.

ghost use Rattle.std.specs.Prelude.{◌≡◌, ◌↔◌, ◌≤◌};
ghost use Rattle.board_text.specs.PlainBoard.{PlainBoard, IsConfiguration};
ghost use Rattle.positions.specs.Claim.{Holds};
ghost use Rattle.positions.specs.Ranks.{configurations};
ghost use Rattle.positions.specs.declared.claim.Claim.{Claim as ClaimData};
ghost use Rattle.proof_text.specs.Proof.{PlainProof, IsClaim};
ghost use Rattle.proof_text.specs.Documents.{IsProof, IsClassProof};
ghost use Rattle.proof_text.specs.Positions.{class_positions, configuration_positions};
ghost use Rattle.proof_text.specs.Rules.{BreaksNoRule};

use positions::MAX_CONFIGURATIONS;

/// The rules of checking are sound and complete: on a board of at most `MAX_CONFIGURATIONS`
/// configurations a claim holds of the start exactly if some document of the format breaks no rule
/// and makes it.
#[tactic(auto, using(crate::proofs::LemmasOfLaws::claims_hold_where_documents_show_them_lemmas))]
pub fn claims_hold_where_documents_show_them()
    ensures { (board : PlainBoard) → (claim : ClaimData) → IsConfiguration board board.start
        → configurations board ≤ MAX_CONFIGURATIONS → IsClaim claim → Holds board claim
        ↔ ((proof : PlainProof) × IsProof board proof
        × BreaksNoRule configuration_positions board proof
        × (proof.claim ≡ claim)) }
{}

/// Both versions of the format show the same claims: on a board of at most `MAX_CONFIGURATIONS`
/// configurations some document with a row for each configuration breaks no rule and makes a claim
/// exactly if some document with a row for each class does.
pub fn both_versions_show_the_same_claims()
    ensures { (board : PlainBoard) → (claim : ClaimData)
        → IsConfiguration board board.start → configurations board ≤ MAX_CONFIGURATIONS
        → ((proof : PlainProof) × IsProof board proof
        × BreaksNoRule configuration_positions board proof
        × (proof.claim ≡ claim))
        ↔ ((proof : PlainProof) × IsClassProof board proof
        × BreaksNoRule (class_positions board.labels) board proof
        × (proof.claim ≡ claim)) }
{}
