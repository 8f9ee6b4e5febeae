//! The test whether a pair of labels can follow others in a board.

ghost use Rattle.std.specs.Prelude.{MatchOption};
ghost use Rattle.board_text.specs.PlainBoard.{AreLabels};
ghost use Rattle.board_text.specs.Inside.Parsing.{CanFollow};
ghost use Rattle.board_text.specs.Inside.PairFaults.{IsPairFault};

use crate::domination::Domination;
use crate::fault::BoardKind;

/// The fault of the pair of `x` and `y`, if it can't follow the pairs so far.
pub(crate) fn pair_fault(beats: &Domination, x: u16, y: u16) -> Option<BoardKind>
    requires { AreLabels beats.now.labels (x, y) }
    ensures { MatchOption result (CanFollow beats.now.labels beats.now.pairs (x, y))
        (λ kind. IsPairFault beats.now.labels beats.now.pairs (x, y) kind) }
{
    if x == y {
        return Some(BoardKind::SelfBeat);
    }
    if beats.contains(y, x) {
        return Some(BoardKind::TwoWay);
    }
    if !beats.is_next(x, y) {
        return Some(BoardKind::Order);
    }
    None
}
