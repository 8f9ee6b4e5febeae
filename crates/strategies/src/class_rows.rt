//! The rows of a section over normal places, made in parts.

ghost use Rattle.std.specs.Prelude.{◌≤◌, All, IfErr, IfOk, flat_map};
ghost use Rattle.strategies.specs.Inside.NumberedPositions.{normal_kind, over_normal};
ghost use Rattle.strategies.specs.Inside.NormalForm.{IsNormalBy, normal_by};
ghost use Rattle.strategies.specs.Inside.Numbering.{by_order};
ghost use Rattle.strategies.specs.Inside.Sections.{HasNoSection};
ghost use Rattle.strategies.specs.Inside.Side.{MayStandAt, AreRowsAt, AreSection};

use crate::gap_moves::GapMoves;
use crate::listed_numbers::ListedNumbers;
use crate::normal_walk::NormalWalk;
use crate::reached_numbers::ReachedNumbers;
use crate::sections::{SectionRow, reached, rows_at, section};
use crate::unmade::Unmade;
use board_text::Memory;
use gap_values::ValueTable;
use positions::Value;
use rayon::prelude::*;
use std::alloc::Global;
use std::thread::Threads;
use symmetries::Alike;

/// One side's rows of the document over normal places of a board whose start has the value
/// `start`, if they are at most `most`, made in at most `parts` parts. Threads make them where each
/// has a thousand rows or more to make, and one can be started.
pub(crate) fn section_in_parts<R: SectionRow + Send + Sync, V: ValueTable + Sync>(
    rt: &(impl Threads + Sync),
    alloc: Global,
    moves: &GapMoves<'_, V>,
    alike: &Alike,
    start: Value,
    most: usize,
    parts: u32,
) -> Result<Vec<R>, Unmade>
    requires kind { R.names (normal_kind moves.now alike.now) }
    requires normal { IsNormalBy moves.now alike.now }
    requires parts { 1 ≤ parts }
    ensures ok { IfOk result (λ rows. AreSection (by_order moves.now)
        (R.side (over_normal moves.now (normal_by moves.now alike.now)) start) rows.items) }
    ensures fault { IfErr result (HasNoSection (by_order moves.now)
        (R.side (over_normal moves.now (normal_by moves.now alike.now)) start) most) }
{
    // One walk keeps the best answers that it finds on the way for the rows.
    let is_one_walk = parts == 1;
    let mut here = NormalWalk::at_start(alloc, moves, alike, is_one_walk && R::names_answers());
    let set = ListedNumbers::new(alloc, most);
    let gaps = ListedNumbers::new(alloc, most);
    if is_one_walk {
        return section(alloc, &mut here, set, gaps, start);
    }
    let set = reached::<R, NormalWalk<'_, '_, V>, ListedNumbers>(&mut here, set, gaps)?;
    let numbers = set.in_order(alloc)?;
    let mut rows = Vec::with_capacity(alloc, numbers.len())?;
    for part in &rows_in_parts::<R, V>(rt, alloc, moves, alike, start, &numbers, parts)? {
        rows.extend_from_slice(part)?;
    }
    Ok(rows)
}

/// The rows at the places of `numbers`, in at most `parts` parts, in their order.
fn rows_in_parts<R: SectionRow + Send + Sync, V: ValueTable + Sync>(
    rt: &(impl Threads + Sync),
    alloc: Global,
    moves: &GapMoves<'_, V>,
    alike: &Alike,
    start: Value,
    numbers: &[u64],
    parts: u32,
) -> Result<Vec<Vec<R>>, Memory>
    requires kind { R.names (normal_kind moves.now alike.now) }
    requires normal { IsNormalBy moves.now alike.now }
    requires numbers { All (MayStandAt (by_order moves.now)
        (R.side (over_normal moves.now (normal_by moves.now alike.now)) start)) numbers.now }
    requires parts { 1 ≤ parts }
    ensures { IfOk result (λ parts. AreRowsAt (by_order moves.now)
        (R.side (over_normal moves.now (normal_by moves.now alike.now)) start) numbers.now
        (flat_map (λ part. part.items) parts.items)) }
{
    let size = numbers.len().div_ceil(parts as usize).max(1);
    let rows: Result<Vec<Vec<R>>, Memory> = numbers
        .par_chunks(size)
        .map(
            |part: &[u64]| -> Result<Vec<R>, Memory>
                requires kind { R.names (normal_kind moves.now alike.now) }
                requires normal { IsNormalBy moves.now alike.now }
                requires numbers { All (MayStandAt (by_order moves.now)
                    (R.side (over_normal moves.now (normal_by moves.now alike.now)) start))
                    part.now }
                ensures { IfOk result (λ rows. AreRowsAt (by_order moves.entry.now)
                    (R.side (over_normal moves.entry.now
                    (normal_by moves.entry.now alike.entry.now)) start)
                    part.now rows.items) }
            {
                let mut here = NormalWalk::at_start(alloc, moves, alike, R::names_answers());
                rows_at(alloc, &mut here, start, part)
            },
        )
        .collect(rt, alloc)?;
    rows
}
