//! The lines of a section's rows, written as configurations are walked.

ghost use Rattle.strategies.specs.Inside.Marks.{IsMarked};
ghost use Rattle.std.specs.Prelude.{◌≡◌, ◌+◌, ◌*◌, ◌^◌, ◌<◌, ◌≤◌, IfOk};
ghost use Rattle.strategies.specs.Inside.NumberedPositions.{over_ranks};
ghost use Rattle.strategies.specs.Inside.Lines.{AreLinesBetween, AreSectionLines};
ghost use Rattle.strategies.specs.Inside.Numbering.{by_rank};
ghost use Rattle.strategies.specs.Inside.Side.{AreReached};

use crate::line_walk::LineWalk;
use crate::marks::Marks;
use crate::rank_moves::RankMoves;
use crate::rank_sections::{LineRow, reached_marks};
use board_text::Memory;
use positions::{MAX_CONFIGURATIONS, Value};
use proof_text::{PlaceWords, RowText};
use rayon::prelude::*;
use std::alloc::Global;
use std::ops::Range;
use std::thread::Threads;

/// The least number of ranks that are worth a thread.
const LEAST_SPAN: u32 = 16_384;

/// The lines of rows, and how many rows these are.
#[derive(Drop)]
pub(crate) struct Lines {
    pub(crate) bytes: Vec<u8>,
    pub(crate) rows: u32,
}

/// The lines of one side's rows of the document of a board whose start has the value `start`, in
/// ascending rank. They are one part.
pub(crate) fn section_lines<R: LineRow>(
    alloc: Global,
    moves: &RankMoves<'_>,
    words: &PlaceWords,
    start: Value,
) -> Result<Vec<Lines>, Memory>
    requires { words.now ≡ moves.now.labels }
    ensures { IfOk result (λ parts. AreSectionLines moves.now (R.side (over_ranks moves.now) start)
        (R.line moves.now) parts.items) }
{
    let marks = reached_marks::<R>(alloc, moves)?;
    let end = moves.space().configurations();
    let mut parts = Vec::new(alloc);
    parts.push(lines_between::<R>(alloc, moves, words, start, &marks, 0..end)?)?;
    Ok(parts)
}

/// The same, in at most `parts` parts of consecutive ranks. Threads make them if each has
/// `LEAST_SPAN` ranks or more, and one can be started.
pub(crate) fn section_lines_in_parts<R: LineRow + Send + Sync>(
    rt: &(impl Threads + Sync),
    alloc: Global,
    moves: &RankMoves<'_>,
    words: &PlaceWords,
    start: Value,
    parts: u32,
) -> Result<Vec<Lines>, Memory>
    requires words { words.now ≡ moves.now.labels }
    requires parts { 1 ≤ parts }
    ensures { IfOk result (λ parts. AreSectionLines moves.now (R.side (over_ranks moves.now) start)
        (R.line moves.now) parts.items) }
{
    let size = moves
        .space()
        .configurations()
        .div_ceil(parts)
        .max(LEAST_SPAN);
    lines_of_spans::<R>(rt, alloc, moves, words, start, size)
}

/// The lines of one side's rows at the configurations that were reached, a part for each `size`
/// ranks.
fn lines_of_spans<R: LineRow + Send + Sync>(
    rt: &(impl Threads + Sync),
    alloc: Global,
    moves: &RankMoves<'_>,
    words: &PlaceWords,
    start: Value,
    size: u32,
) -> Result<Vec<Lines>, Memory>
    requires words { words.now ≡ moves.now.labels }
    requires some { 0 < size }
    requires few { size ≤ MAX_CONFIGURATIONS }
    ensures { IfOk result (λ parts. AreSectionLines moves.now (R.side (over_ranks moves.now) start)
        (R.line moves.now) parts.items) }
{
    let marks = reached_marks::<R>(alloc, moves)?;
    let count = moves.space().configurations().div_ceil(size);
    let lines: Result<Vec<Lines>, Memory> = (0..count)
        .into_par_iter()
        .with_min_len(1)
        .map(
            |span: u32| -> Result<Lines, Memory>
                requires words { words.now ≡ moves.now.labels }
                requires reached { AreReached (by_rank moves.now) moves.now (R.side (over_ranks
                    moves.now) start)
                    (IsMarked marks) }
                requires end { span * size + size < 2 ^ 32 }
                ensures { IfOk result (AreLinesBetween moves.entry.now
                    (R.side (over_ranks moves.entry.now) start) (R.line moves.entry.now) marks
                    (span * size) (span * size + size)) }
            {
                let first = span * size;
                lines_between::<R>(alloc, moves, words, start, &marks, first..first + size)
            },
        )
        .collect(rt, alloc)?;
    lines
}

/// The lines of one side's rows at the configurations of the marked ranks, which are those that
/// were reached, and in the `span`.
fn lines_between<R: LineRow>(
    alloc: Global,
    moves: &RankMoves<'_>,
    words: &PlaceWords,
    start: Value,
    marks: &Marks,
    span: Range<u32>,
) -> Result<Lines, Memory>
    requires words { words.now ≡ moves.now.labels }
    requires reached { AreReached (by_rank moves.now) moves.now (R.side (over_ranks moves.now)
        start)
        (IsMarked marks.now) }
    requires span { span.start ≤ span.end }
    ensures { IfOk result (AreLinesBetween moves.now (R.side (over_ranks moves.now) start) (R.line
        moves.now)
        marks.now span.start span.end) }
{
    let mut here = LineWalk::at_start(moves, words);
    let mut text = RowText::new(String::new(alloc));
    let mut rows = 0;
    let mut from = span.start;
    while let Some(rank) = marks.first_between(from, span.end) {
        here.go_to(rank);
        if let Some(row) = R::at(here.walk(), rank as u64, start) {
            row.write(&here, &mut text)?;
            rows += 1;
        }
        from = rank + 1;
    }
    Ok(Lines {
        bytes: text.finish()?,
        rows,
    })
}
