//! Making nested boards.

ghost use Rattle.std.specs.Prelude.{◌≡◌, ◌*◌, ◌<◌, IfOk};
ghost use Rattle.board_text.specs.Ranges.{InRange};
ghost use Rattle.nested_cycles.specs.Domination.{labels_of};
ghost use Rattle.nested_cycles.specs.NestedBoard.{IsNestedBoard};
ghost use Rattle.nested_cycles.specs.Inside.Pairs.{AreNestedPairs};

use crate::domination::nested_beats;
use board_text::{Board, BoardKind, MAX_PEBBLES, Memory};
use std::alloc::{AllocError, Global};

/// The highest level whose nested board is made: the next has more labels than a board may have.
pub const MAX_BOARD_LEVELS: u8 = 6;

/// The nested board of level `levels`, 1 to `MAX_BOARD_LEVELS`, with `pebbles` pebbles, 1 to
/// `MAX_PEBBLES`, all on the label 0.
pub fn nested_board(alloc: Global, levels: u8, pebbles: u8) -> Result<Board, Memory>
    requires levels { InRange 1 MAX_BOARD_LEVELS levels }
    requires pebbles { InRange 1 MAX_PEBBLES pebbles }
    ensures { IfOk result (λ board. IsNestedBoard levels pebbles board) }
{
    let labels = 3_u16.pow(u32::from(levels) - 1);
    let pairs = nested_pairs(alloc, levels, labels)?;
    let start = [0; MAX_PEBBLES];
    match Board::build(
        alloc,
        labels,
        pebbles,
        &start[..usize::from(pebbles)],
        &pairs,
    ) {
        Ok(board) => Ok(board),
        Err(fault) => {
            prove!(matches!(&fault.kind, BoardKind::Memory));
            Err(Memory)
        }
    }
}

/// The pairs of labels of which the first dominates the second, ascending.
fn nested_pairs(alloc: Global, levels: u8, labels: u16) -> Result<Vec<(u16, u16)>, AllocError>
    requires levels { InRange 1 MAX_BOARD_LEVELS levels }
    requires labels { labels ≡ labels_of levels }
    ensures { IfOk result (λ pairs. AreNestedPairs levels (labels * labels) pairs.items) }
{
    let count = u32::from(labels);
    let mut pairs = Vec::with_capacity(alloc, (count * count / 2) as usize)?;
    for number in 0..count * count {
        let x = number / count;
        let y = number % count;
        if nested_beats(levels, u64::from(x), u64::from(y)) {
            pairs.push((x as u16, y as u16))?;
        }
    }
    Ok(pairs)
}
