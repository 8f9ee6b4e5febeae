//! The document by classes of a board whose values are found.

ghost use Rattle.std.specs.Prelude.{◌≡◌, ◌≤◌, IfOk, IfErr, flat_map, string_bytes};
ghost use Rattle.runs.specs.Inside.SolveRun.{IsSolvedByClassesFor, IsUnshown};

use crate::checking::MAX_PROOF_BYTES;
use crate::fault::RunFault;
use crate::solving::expect_strategy;
use board_text::Memory;
use gap_values::GapValues;
use positions::Side;
use proof_text::print_classes_in_parts;
use std::alloc::Global;
use std::thread::Threads;
use strategies::{DocumentText, GapMoves, MadeDocument, document_by_classes_in_parts};

/// The value of the start of the board of `moves`, and the text of its document by classes, for
/// `side` alone or for both, made in this number of `parts`, if that isn't too long.
pub(crate) fn class_solution(
    rt: &(impl Threads + Sync),
    alloc: Global,
    moves: &GapMoves<'_, GapValues>,
    side: Option<Side>,
    parts: u8,
) -> Result<DocumentText, RunFault>
    requires parts { 1 ≤ parts }
    ensures ok { IfOk result (λ solved. IsSolvedByClassesFor side moves.now solved.value
        (flat_map (λ part. part.items) solved.parts.items)) }
    ensures fault { IfErr result (IsUnshown side moves.now) }
{
    expect_strategy(moves, side)?;
    let parts = parts as u32;
    let made = document_by_classes_in_parts(rt, alloc, moves, side, MAX_PROOF_BYTES, parts)?;
    let MadeDocument { value, proof } = made;
    let text = print_classes_in_parts(rt, alloc, moves.board(), &proof, parts)?;
    if text.len() > MAX_PROOF_BYTES {
        return Err(RunFault::DocumentTooLarge);
    }
    let parts = whole(alloc, text)?;
    Ok(DocumentText { value, parts })
}

/// The text, as one part.
pub(crate) fn whole(alloc: Global, text: String) -> Result<Vec<Vec<u8>>, Memory>
    ensures { IfOk result (λ parts. flat_map (λ part. part.items) parts.items ≡ string_bytes text) }
{
    let mut parts = Vec::new(alloc);
    parts.push(text.into_bytes())?;
    Ok(parts)
}
