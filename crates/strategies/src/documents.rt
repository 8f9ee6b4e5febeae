//! Making the document that shows the value of a board's start.

ghost use Rattle.std.specs.Prelude.{◌≡◌, IfOk};
ghost use Rattle.strategies.specs.Document.{IsMadeDocument};

use crate::gap_moves::GapMoves;
use crate::rank_moves::RankMoves;
use crate::rank_sections::rank_section;
use board_text::{Board, Memory};
use gap_values::ValueTable;
use positions::{Claim, Space, Value};
use proof_text::Proof;
use solver::Values;
use std::alloc::Global;

/// The document of the board of `moves`, whose configurations and gaps are those of `space`: the
/// value of its start, a strategy for the labeller, and one for the adversary if the value is
/// finite.
fn document_by<V: ValueTable>(
    alloc: Global,
    moves: &GapMoves<'_, V>,
    space: &Space,
) -> Result<Proof, Memory>
    requires same_board { space.now ≡ moves.now }
    ensures { IfOk result (IsMadeDocument moves.now) }
{
    let ranked = RankMoves::of(alloc, moves, space)?;
    let value = moves.start_value();
    let labeller = rank_section(alloc, &ranked, value)?;
    let adversary = match value {
        Value::Finite(_) => rank_section(alloc, &ranked, value)?,
        Value::Forever => Vec::new(alloc),
    };
    Ok(Proof {
        claim: Claim::from(value),
        labeller,
        adversary,
    })
}

/// The document of `board`: the value of its start, a strategy for the labeller, and one for the
/// adversary if the value is finite.
///
/// The `values` are those of `board`.
pub fn document(alloc: Global, board: &Board, values: &Values) -> Result<Proof, Memory>
    requires same_board { values.now ≡ board.now }
    ensures { IfOk result (IsMadeDocument board.now) }
{
    let moves = GapMoves::new(board, values);
    document_by(alloc, &moves, values.space())
}
