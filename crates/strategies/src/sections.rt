//! The sections of a document: a row for each position that was reached.

ghost use Rattle.std.specs.Prelude.{◌≡◌, ◌↔◌, All, IfErr, IfOk, IsTrue};
ghost use Rattle.positions.specs.declared.value.Value.{Value as ValueData};
ghost use Rattle.strategies.specs.Inside.NumberedPositions.{AreNumberedPositions, HasRoomForEach};
ghost use Rattle.strategies.specs.Inside.NumberedPositions.{IsSideOf, MayTakeSteps};
ghost use Rattle.strategies.specs.Inside.NumberedPositions.{NumberedPositions, PositionKind};
ghost use Rattle.strategies.specs.Inside.NumberedPositions.{SideMoves, TakesSteps, over_kind};
ghost use Rattle.strategies.specs.Inside.NumberedPositions.{step_sets};
ghost use Rattle.strategies.specs.Inside.Reached.{NothingIsReached};
ghost use Rattle.strategies.specs.Inside.Sections.{HasNoSection};
ghost use Rattle.strategies.specs.Inside.Side.{AreReached, AreRowsAt, AreSection, IsRowAt};
ghost use Rattle.strategies.specs.Inside.Side.{MayStandAt, Side};
ghost use Rattle.strategies.specs.PositionDocument.{turns_of};

use crate::position_walk::PositionWalk;
use crate::reached_numbers::ReachedNumbers;
use crate::unmade::Unmade;
use board_text::Memory;
use positions::{Turns, Value};
use std::alloc::Global;

/// A row of one side's section.
pub(crate) trait SectionRow: Copy {
    // It names positions of such kinds.
    ghost names: { PositionKind → Type 0 };

    ghost side: { NumberedPositions → ValueData → Side Self };

    ghost moves: { NumberedPositions → SideMoves };

    /// Whether rows name best answers, so that a walk over their positions is to keep them.
    fn names_answers() -> bool;

    /// Whether a row may stand at the start's position, where `here` is.
    fn may_start<W: PositionWalk>(here: &W) -> bool
        requires kind { names (W.kind here.now) }
        requires positions { AreNumberedPositions (over_kind (W.kind here.now)) }
        ensures holds { IsTrue result ↔ (moves (over_kind (W.kind here.now))).Holds (W.held
            here.now) }
        ensures side { (start : ValueData) → IsSideOf (over_kind (W.kind here.now))
            (moves (over_kind (W.kind here.now))) (side (over_kind (W.kind here.now)) start) };

    /// Adds the positions to which the side's moves lead from where `here` is. Those of a request
    /// whose gap is in `expanded` are there.
    fn add_steps<W: PositionWalk, S: ReachedNumbers>(
        here: &W,
        reached: &mut S,
        expanded: &mut S,
    ) -> Result<(), Memory>
        requires { MayTakeSteps (over_kind (W.kind here.now))
            (moves (over_kind (W.kind here.now))).Step
            (step_sets S.reached S.room reached.old expanded.old) }
        ensures { IfOk result (λ _. TakesSteps (over_kind (W.kind here.now))
            (moves (over_kind (W.kind here.now))).Step
            ((moves (over_kind (W.kind here.now))).Leads (W.held here.now))
            (step_sets S.reached S.room reached.old expanded.old)
            (step_sets S.reached S.room reached.new expanded.new)) };

    /// The row of the reached position of `number`, where `here` is, if it has one. The start has
    /// the value `start`.
    fn at<W: PositionWalk>(here: &W, number: u64, start: Value) -> Option<Self>
        requires kind { names (W.kind here.now) }
        requires here { W.held here.now ≡ (over_kind (W.kind here.now)).numbering.places number }
        requires may_stand { MayStandAt (over_kind (W.kind here.now)).numbering
            (side (over_kind (W.kind here.now)) start) number }
        ensures { IsRowAt (over_kind (W.kind here.now)).numbering (side (over_kind (W.kind
            here.now)) start) number
            result };
}

/// The numbers of the positions that a row may stand at, put into the set `reached`, by a set
/// `expanded` for gaps.
pub(crate) fn reached<R: SectionRow, W: PositionWalk, S: ReachedNumbers>(
    here: &mut W,
    mut reached: S,
    mut expanded: S,
) -> Result<S, Unmade>
    requires kind { R.names (W.kind here.old) }
    requires room { HasRoomForEach (over_kind (W.kind here.old)) (S.room reached)
        (S.room expanded) }
    requires none { NothingIsReached (S.reached reached) }
    requires none_expanded { NothingIsReached (S.reached expanded) }
    ensures kind { W.kind here.new ≡ W.kind here.old }
    ensures positions { AreNumberedPositions (over_kind (W.kind here.old)) }
    ensures ok { IfOk result (λ set. (start : ValueData) → AreReached (over_kind (W.kind
        here.old)).numbering
        (over_kind (W.kind here.old)).board (R.side (over_kind (W.kind here.old)) start) (S.reached
        set).Among) }
    ensures fault { IfErr result (λ fault. (start : ValueData) → HasNoSection
        (over_kind (W.kind here.old)).numbering (R.side (over_kind (W.kind here.old)) start) (S.room
        reached).most
        fault) }
{
    let start = here.start();
    here.go_to(start);
    if R::may_start(here) {
        reached.add(start)?;
    }
    while let Some(number) = reached.take_next()? {
        here.go_to(number);
        R::add_steps(here, &mut reached, &mut expanded)?;
    }
    Ok(reached)
}

/// One side's rows of the document of a board whose start has the value `start`, in the order of
/// the numbers of their positions, by a set `reached` for these and one for gaps.
pub(crate) fn section<R: SectionRow, W: PositionWalk, S: ReachedNumbers>(
    alloc: Global,
    here: &mut W,
    set: S,
    expanded: S,
    start: Value,
) -> Result<Vec<R>, Unmade>
    requires kind { R.names (W.kind here.old) }
    requires room { HasRoomForEach (over_kind (W.kind here.old)) (S.room set) (S.room expanded) }
    requires none { NothingIsReached (S.reached set) }
    requires none_expanded { NothingIsReached (S.reached expanded) }
    ensures ok { IfOk result (λ rows. AreSection (over_kind (W.kind here.old)).numbering
        (R.side (over_kind (W.kind here.old)) start) rows.items) }
    ensures fault { IfErr result (HasNoSection (over_kind (W.kind here.old)).numbering
        (R.side (over_kind (W.kind here.old)) start) (S.room set).most) }
{
    let numbers = reached::<R, W, S>(here, set, expanded)?.in_order(alloc)?;
    here.end_keeping();
    let rows = rows_at(alloc, here, start, &numbers)?;
    Ok(rows)
}

/// The rows at the positions of `numbers`, in their order.
pub(crate) fn rows_at<R: SectionRow, W: PositionWalk>(
    alloc: Global,
    here: &mut W,
    start: Value,
    numbers: &[u64],
) -> Result<Vec<R>, Memory>
    requires kind { R.names (W.kind here.old) }
    requires numbers { All (MayStandAt (over_kind (W.kind here.old)).numbering
        (R.side (over_kind (W.kind here.old)) start)) numbers.now }
    ensures { IfOk result (λ rows. AreRowsAt (over_kind (W.kind here.old)).numbering
        (R.side (over_kind (W.kind here.old)) start) numbers.now rows.items) }
{
    let mut rows = Vec::with_capacity(alloc, numbers.len())?;
    for number in numbers {
        here.go_to(*number);
        if let Some(row) = R::at(here, *number, start) {
            rows.push(row)?;
        }
    }
    Ok(rows)
}

/// The turns for which places with `value` are listed, if the start has the value `start`.
pub(crate) fn turns(start: Value, value: Value) -> Turns
    ensures { result ≡ turns_of start value }
{
    match (start, value) {
        (Value::Forever, _) => Turns::Always,
        (Value::Finite(number), Value::Finite(value)) => Turns::Count(value.min(number)),
        (Value::Finite(number), Value::Forever) => Turns::Count(number),
    }
}
