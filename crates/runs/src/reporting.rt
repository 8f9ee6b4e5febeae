//! Reporting how many configurations of a board have each value.

ghost use Rattle.std.specs.Prelude.{◌≡◌, ◌++◌, true, false, IfOk, IfErr, OnOk, string_bytes};
ghost use Rattle.board_text.specs.Ranges.{InRange};
ghost use Rattle.gap_values.specs.Sizes.{AreValueCounts};
ghost use Rattle.positions.specs.Ranks.{configurations};
ghost use Rattle.positions.specs.Value.{HasValue};
ghost use Rattle.runs.specs.Report.{IsReportOf, IsReportOfText, Reports, count_line, count_lines};
ghost use Rattle.runs.specs.Report.{end_lines, head_lines, size_line, start_value_line};
ghost use Rattle.runs.specs.Run.{Ran, Fails, TellsStreams, bytes_of, stream_of};
ghost use Rattle.runs.specs.SolveRun.{CannotSolve};
ghost use Rattle.runs.specs.Texts.{HasNoBoard};

use crate::boards::small_board;
use crate::fault::RunFault;
use crate::reading::MAX_BOARD_BYTES;
use crate::summaries::Summary;
use crate::work::Work;
use board_text::{Board, Sink, Source, Through};
use command_line::BoardLimit;
use console::NoWatch;
use gap_values::{GapValues, OnThisThread, Sizes, ValueTable};
use positions::{Claim, Value};
use proof_text::write_claim;
use round_workers::MAX_WORKERS;
use std::alloc::{AllocError, Global};
use std::fmt::Write;
use std::sync::Wait;
use std::thread::Threads;
use strategies::GapMoves;

/// Reads a board, finds its values and writes how many of its configurations have each value.
///
/// The number of `workers` is 1 to `MAX_WORKERS`, and they find the values as in `run_solve`. It
/// may wait for them. The reader and the writer must not have failed before, nor the reader have
/// reported its end. Nothing is written before the whole text is built: after a fault nothing was
/// written, but for `Write`, after which a prefix of the text was.
pub fn run_report<R: Source, W: Sink>(
    rt: &(impl Threads + Wait + Sync),
    alloc: Global,
    workers: u8,
    reader: &mut R,
    writer: &mut W,
) -> Result<(), RunFault>
    requires workers { InRange 1 MAX_WORKERS workers }
    requires reader_ready { R.has_failed reader.old ≡ false }
    requires reader_unended { R.has_ended reader.old ≡ false }
    requires writer_ready { W.has_failed writer.old ≡ false }
    ensures ok { IfOk result (Ran (Reports BoardLimit.Small) MAX_BOARD_BYTES
        (bytes_of R.remaining reader.old reader.new) (bytes_of W.contents writer.old writer.new)) }
    ensures fault { IfErr result (Fails (Reports BoardLimit.Small)
        (CannotSolve BoardLimit.Small workers) MAX_BOARD_BYTES
        (bytes_of R.remaining reader.old reader.new) (bytes_of W.contents writer.old writer.new)) }
    ensures streams { TellsStreams result (R.has_failed reader.new ≡ true)
        (stream_of W.contents W.has_failed writer.old writer.new) }
{
    let mut nobody = Through::new(Vec::new(alloc));
    Work::of(workers).summarize(rt, alloc, Summary::Report, reader, writer, &mut nobody)
}

/// The report of the board whose text is `text`. Its values are found on this thread.
pub fn report_text_alone(alloc: Global, text: &[u8]) -> Result<String, RunFault>
    ensures report { IfOk result (λ report.
        IsReportOfText BoardLimit.Small text.now (string_bytes report)) }
    ensures fault { IfErr result (HasNoBoard text.now) }
{
    let board = small_board(alloc, text)?;
    let values = GapValues::of(alloc, &board, &OnThisThread, &NoWatch, &mut ())?;
    let sizes = values.sizes(alloc)?;
    Ok(report_by(alloc, &GapMoves::new(&board, &values), &sizes)?)
}

/// The report of the board of `moves`, of whose configurations these numbers have each value.
pub(crate) fn report_by<V: ValueTable>(
    alloc: Global,
    moves: &GapMoves<'_, V>,
    sizes: &Sizes,
) -> Result<String, AllocError>
    requires { AreValueCounts moves.now sizes.now.finite.items sizes.now.forever }
    ensures { IfOk result (λ text. IsReportOf moves.now (string_bytes text)) }
{
    let start = moves.value(moves.board().start());
    report_of(alloc, moves.board(), start, sizes)
}

/// The report of `board`, whose start has the value `start`.
fn report_of(
    alloc: Global,
    board: &Board,
    start: Value,
    sizes: &Sizes,
) -> Result<String, AllocError>
    requires start { HasValue board.now board.now.start start }
    requires sizes { AreValueCounts board.now sizes.now.finite.items sizes.now.forever }
    ensures { IfOk result (λ text. IsReportOf board.now (string_bytes text)) }
{
    let mut text = String::new(alloc);
    write_head(&mut text, board)?;
    write_start(&mut text, start)?;
    write_counts(&mut text, sizes.finite.as_slice())?;
    write_end(&mut text, sizes.forever)?;
    Ok(text)
}

/// Writes the first lines, with the size of the board.
fn write_head(text: &mut String, board: &Board) -> Result<(), AllocError>
    ensures { OnOk result (string_bytes text.new ≡ string_bytes text.old ++ head_lines board.now) }
{
    text.push_str("report 1\n")?;
    write_size(text, "labels", u64::from(board.labels()))?;
    write_size(text, "pebbles", u64::from(board.pebbles()))?;
    write_size(text, "configurations", count_configurations(board))?;
    Ok(())
}

/// The number of configurations of `board`.
fn count_configurations(board: &Board) -> u64
    ensures { result ≡ configurations board.now }
{
    u64::from(board.places()).pow(u32::from(board.pebbles()))
}

/// Writes the line of a `word` and a number.
pub(crate) fn write_size(text: &mut String, word: &str, number: u64) -> Result<(), AllocError>
    ensures { OnOk result (string_bytes text.new ≡ string_bytes text.old
        ++ size_line word.now number) }
{
    write!(text, "{word} {number}\n")
}

/// Writes the value of the start.
fn write_start(text: &mut String, start: Value) -> Result<(), AllocError>
    ensures { OnOk result (string_bytes text.new ≡ string_bytes text.old
        ++ start_value_line start) }
{
    text.push_str("start ")?;
    write_claim(text, Claim::from(start))?;
    text.push_str("\n")
}

/// Writes a line for each of the numbers of configurations `counts`, which are those of the values
/// from 0 on.
fn write_counts(text: &mut String, counts: &[u64]) -> Result<(), AllocError>
    ensures { OnOk result (string_bytes text.new ≡ string_bytes text.old
        ++ count_lines 0 counts.now) }
{
    for value in 0..counts.len() {
        write_count(text, value as u64, counts[value])?;
    }
    Ok(())
}

/// Writes the line of a value and the number of configurations that have it.
fn write_count(text: &mut String, value: u64, count: u64) -> Result<(), AllocError>
    ensures { OnOk result (string_bytes text.new ≡ string_bytes text.old
        ++ count_line value count) }
{
    write!(text, "value {value}: {count}\n")
}

/// Writes the number of configurations that last forever, and the end.
fn write_end(text: &mut String, forever: u64) -> Result<(), AllocError>
    ensures { OnOk result (string_bytes text.new ≡ string_bytes text.old ++ end_lines forever) }
{
    write!(text, "forever: {forever}\nend\n")
}
