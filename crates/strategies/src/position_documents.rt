//! Making the rows of a board's document over normal places.

ghost use Rattle.std.specs.Prelude.{◌≤◌, IfErr, IfOk};
ghost use Rattle.board_text.specs.PlainBoard.{IsBoard};
ghost use Rattle.positions.specs.Value.{HasValue};
ghost use Rattle.positions.specs.declared.value.Value.{Value as ValueData};
ghost use Rattle.proof_text.specs.ClassProof.{plain_class_proof};
ghost use Rattle.strategies.specs.Inside.ClassSide.{AreClassPadded};
ghost use Rattle.strategies.specs.Inside.LongSections.{HasNoRows, IsDocumentOverFor};
ghost use Rattle.strategies.specs.Inside.NormalForm.{IsNormalBy, normal_by};
ghost use Rattle.strategies.specs.Sides.{HasStrategy};

use crate::class_documents::{adversary_room, labeller_room};
use crate::class_rows::section_in_parts;
use crate::gap_moves::GapMoves;
use crate::sides::{asks_adversary, asks_labeller, claim_for};
use crate::unmade::Unmade;
use gap_values::ValueTable;
use positions::{Side, Value};
use proof_text::ClassProof;
use std::alloc::Global;
use std::thread::Threads;
use symmetries::Alike;

/// The value of a board's start, and a document of the board.
#[derive(Drop)]
pub struct MadeDocument<P> {
    pub value: Value,
    pub proof: P,
}

/// The value of the start of the board of `moves`, and the rows of its document over normal
/// places, for `side` alone or for both, made in at most `parts` parts, unless they have more bytes
/// than `bytes`.
pub(crate) fn document_over<V: ValueTable + Sync>(
    rt: &(impl Threads + Sync),
    alloc: Global,
    moves: &GapMoves<'_, V>,
    alike: &Alike,
    side: Option<Side>,
    bytes: usize,
    parts: u32,
) -> Result<MadeDocument<ClassProof>, Unmade>
    requires normal { IsNormalBy moves.now alike.now }
    requires strategy { (value : ValueData)
        → HasValue moves.now moves.now.start value → HasStrategy side value }
    requires parts { 1 ≤ parts }
    ensures has_value { IfOk result (λ made. HasValue moves.now moves.now.start made.value) }
    ensures document { IfOk result (λ made. IsDocumentOverFor side moves.now
        (normal_by moves.now alike.now) (plain_class_proof moves.now made.proof)) }
    ensures padded { IfOk result (λ made. AreClassPadded moves.now made.proof) }
    ensures is_board { IfOk result (λ _. IsBoard moves.now) }
    ensures fault { IfErr result
        (HasNoRows side moves.now (normal_by moves.now alike.now) bytes) }
{
    let pebbles = moves.board().pebbles();
    let value = moves.start_value();
    let claim = claim_for(side, value);
    let most = labeller_room(pebbles, bytes);
    let labeller = if asks_labeller(claim) {
        section_in_parts(rt, alloc, moves, alike, value, most, parts)?
    } else {
        Vec::new(alloc)
    };
    let most = adversary_room(pebbles, bytes);
    let adversary = if asks_adversary(claim) {
        section_in_parts(rt, alloc, moves, alike, value, most, parts)?
    } else {
        Vec::new(alloc)
    };
    let proof = ClassProof {
        claim,
        labeller,
        adversary,
    };
    Ok(MadeDocument { value, proof })
}
