//! Solving a board: its document, from the text of the board to the bytes written.

ghost use Rattle.std.specs.Prelude.{◌≡◌, ◌≤◌, true, false, IfOk, IfErr, OnOk, flat_map};
ghost use Rattle.board_text.specs.Ranges.{InRange};
ghost use Rattle.positions.specs.Ranks.{configurations};
ghost use Rattle.positions.specs.Value.{HasValue};
ghost use Rattle.positions.specs.declared.value.Value.{Value as ValueData};
ghost use Rattle.strategies.specs.Sides.{HasStrategy};
ghost use Rattle.runs.specs.Run.{Ran, Fails, TellsStreams, bytes_of, stream_of};
ghost use Rattle.runs.specs.SolveRun.{CannotSolve, IsSolution};
ghost use Rattle.runs.specs.Inside.SolveRun.{IsSolvedFor, IsUnmade};
ghost use Rattle.runs.specs.Texts.{HasNoBoard};

use crate::boards::small_board;
use crate::fault::RunFault;
use crate::reading::MAX_BOARD_BYTES;
use crate::work::Work;
use board_text::{Sink, Source, Through};
use command_line::BoardLimit;
use console::NoWatch;
use gap_values::{GapValues, OnThisThread, ValueTable};
use positions::{MAX_CONFIGURATIONS, Side, Space, Value};
use round_workers::MAX_WORKERS;
use std::alloc::Global;
use std::sync::Wait;
use std::thread::Threads;
use strategies::{DocumentText, GapMoves, document_text, document_text_in_parts};

/// Reads a board, finds the value of its start and writes the document that shows it.
///
/// The reader and the writer must not have failed before, nor the reader have reported its end.
/// Nothing is written before the whole text is built: after a fault nothing was written, but for
/// `Write`, after which a prefix of the text was.
///
/// The number of `workers` is 1 to `MAX_WORKERS`. They share the work that `solve_classes` shares,
/// and each makes the document's rows of a part of the ranks, if a part has 16,384 of them or more.
/// The answer and the bytes written are the same for every number of them. It may wait for workers.
pub fn run_solve<R: Source, W: Sink>(
    rt: &(impl Threads + Wait + Sync),
    alloc: Global,
    workers: u8,
    reader: &mut R,
    writer: &mut W,
) -> Result<Value, RunFault>
    requires workers { InRange 1 MAX_WORKERS workers }
    requires reader_ready { R.has_failed reader.old ≡ false }
    requires reader_unended { R.has_ended reader.old ≡ false }
    requires writer_ready { W.has_failed writer.old ≡ false }
    ensures ok { IfOk result (Ran IsSolution MAX_BOARD_BYTES
        (bytes_of R.remaining reader.old reader.new) (bytes_of W.contents writer.old writer.new)) }
    ensures fault { IfErr result (Fails IsSolution
        (CannotSolve BoardLimit.Small workers) MAX_BOARD_BYTES
        (bytes_of R.remaining reader.old reader.new) (bytes_of W.contents writer.old writer.new)) }
    ensures streams { TellsStreams result (R.has_failed reader.new ≡ true)
        (stream_of W.contents W.has_failed writer.old writer.new) }
{
    let mut nobody = Through::new(Vec::new(alloc));
    Work::of(workers).solve(rt, alloc, None, reader, writer, &mut nobody)
}

/// The value of the start of the board whose text is `text`, and the text of its document, which
/// shows that value. It is found on this thread.
pub fn solve_text_alone(alloc: Global, text: &[u8]) -> Result<DocumentText, RunFault>
    ensures ok { IfOk result (λ solved.
        IsSolution text.now solved.value (flat_map (λ part. part.items) solved.parts.items)) }
    ensures fault { IfErr result (HasNoBoard text.now) }
{
    let board = small_board(alloc, text)?;
    let values = GapValues::of(alloc, &board, &OnThisThread, &NoWatch, &mut ())?;
    let moves = GapMoves::new(&board, &values);
    let space = Space::new(&board);
    Ok(document_text(alloc, &moves, &space)?)
}

/// The value of the start of the board of `moves`, and the text of the board's document, for `side`
/// alone or for both, with the lines of its rows made in this number of `parts`.
pub(crate) fn solution_for(
    rt: &(impl Threads + Sync),
    alloc: Global,
    moves: &GapMoves<'_, GapValues>,
    side: Option<Side>,
    parts: u8,
) -> Result<DocumentText, RunFault>
    requires few { configurations moves.now ≤ MAX_CONFIGURATIONS }
    requires parts { 1 ≤ parts }
    ensures ok { IfOk result (λ solved. IsSolvedFor side moves.now solved.value
        (flat_map (λ part. part.items) solved.parts.items)) }
    ensures fault { IfErr result (IsUnmade side moves.now) }
{
    expect_strategy(moves, side)?;
    let space = Space::new(moves.board());
    let parts = parts as u32;
    Ok(document_text_in_parts(rt, alloc, moves, &space, side, parts)?)
}

/// That `side`, or both, has a strategy on the value of the start: an adversary has none if
/// requests are answered for ever.
pub(crate) fn expect_strategy<V: ValueTable>(
    moves: &GapMoves<'_, V>,
    side: Option<Side>,
) -> Result<(), RunFault>
    ensures ok { OnOk result ((value : ValueData)
        → HasValue moves.now moves.now.start value → HasStrategy side value) }
    ensures fault { IfErr result (IsUnmade side moves.now) }
{
    if side != Some(Side::Adversary) {
        return Ok(());
    }
    match moves.value(moves.board().start()) {
        Value::Finite(_) => Ok(()),
        Value::Forever => Err(RunFault::LastsForever),
    }
}
