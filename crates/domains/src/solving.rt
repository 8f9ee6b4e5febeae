//! Solving a board as plain data: the value of its start and its document, with no text between.

ghost use Rattle.std.specs.Prelude.{◌≡◌, ◌↔◌, ◌<◌, Err, IfOk};
ghost use Rattle.positions.specs.Claim.{Shows, claim_of};
ghost use Rattle.positions.specs.Ranks.{configurations};
ghost use Rattle.positions.specs.Value.{HasValue};
ghost use Rattle.proof_text.specs.Documents.{IsDocument};
ghost use Rattle.proof_text.specs.Proof.{plain_proof, answer_rows, request_rows};
ghost use Rattle.proof_text.specs.Positions.{configuration_positions};
ghost use Rattle.proof_text.specs.Rules.{BreaksNoRule};
ghost use Rattle.solver.specs.declared.fault.SolveFault.TheVariants as SolveFault;
ghost use Rattle.strategies.specs.Document.{IsDocumentOf};
ghost use Rattle.strategies.specs.Meaning.{Means};

use board_text::{Board, Memory};
use index_lists::PlainLists;
use positions::{MAX_CONFIGURATIONS, Value};
use proof_text::Proof;
use solver::{SolveFault, Solver, Values};
use std::alloc::Global;
use strategies::document;

/// The value of a board's start, and the board's document.
#[derive(Drop)]
pub struct Solved {
    pub value: Value,
    pub document: Proof,
}

/// The value of the start of `board`, and the document that means it: it claims the value, its
/// tables show the claim, it breaks no rule of checking, and there is no other document of the
/// board.
///
/// It works on this thread. It answers `TooLarge` for a board of more than `MAX_CONFIGURATIONS`
/// configurations, and `Memory` if a growth of memory was refused.
pub fn solve_board(alloc: Global, board: &Board) -> Result<Solved, SolveFault>
    ensures value { IfOk result (λ solved. HasValue board.now board.now.start solved.value) }
    ensures means { IfOk result (λ solved.
        Means board.now (plain_proof board.now solved.document) solved.value) }
    ensures claim { IfOk result (λ solved. solved.document.claim ≡ claim_of solved.value) }
    ensures shows { IfOk result (λ solved. Shows board.now
        (answer_rows board.now solved.document.labeller.items)
        (request_rows board.now solved.document.adversary.items) solved.document.claim) }
    ensures rules { IfOk result (λ solved.
        BreaksNoRule configuration_positions board.now (plain_proof board.now solved.document)) }
    ensures form { IfOk result (λ solved. IsDocument board.now solved.document) }
    ensures document { IfOk result (λ solved.
        IsDocumentOf board.now (plain_proof board.now solved.document)) }
    ensures too_large { (result ≡ Err SolveFault.TooLarge)
        ↔ (MAX_CONFIGURATIONS < configurations board.now) }
    ensures no_worker { result ≡ Err SolveFault.Worker → ⊥ }
{
    let values = values_of(alloc, board)?;
    let space = values.space();
    let value = values.of(space.rank(board.start()));
    match document(alloc, board, &values) {
        Ok(document) => Ok(Solved { value, document }),
        Err(Memory) => Err(SolveFault::Memory),
    }
}

/// The values of `board`.
fn values_of(alloc: Global, board: &Board) -> Result<Values, SolveFault>
    ensures values { IfOk result (λ values. values ≡ board.now) }
    ensures few { IfOk result (λ _. (MAX_CONFIGURATIONS < configurations board.now) → ⊥) }
    ensures too_large { (result ≡ Err SolveFault.TooLarge)
        ↔ (MAX_CONFIGURATIONS < configurations board.now) }
    ensures no_worker { result ≡ Err SolveFault.Worker → ⊥ }
{
    let solver = Solver::<PlainLists>::open(alloc, board)?;
    Ok(solver.solve())
}
