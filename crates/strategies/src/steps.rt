//! The positions that best answers, and best requests, lead to from others.

ghost use Rattle.std.specs.Prelude.{◌≡◌, ◌<◌, IfOk};
ghost use Rattle.strategies.specs.Inside.NumberedPositions.{HasRoomFor, IsAnswerStep, IsPosition};
ghost use Rattle.strategies.specs.Inside.NumberedPositions.{LegalLeads};
ghost use Rattle.strategies.specs.Inside.NumberedPositions.{MayTakeSteps, TakesSteps, answer_moves};
ghost use Rattle.strategies.specs.Inside.NumberedPositions.{over_kind, request_moves, step_sets};
ghost use Rattle.strategies.specs.Inside.Reached.{AreReachedWith};

use crate::position_walk::PositionWalk;
use crate::reached_numbers::ReachedNumbers;
use board_text::Memory;
use positions::{Value, legal_labels};

/// Adds the positions after the best answer to each request where `here` is, if they have a value
/// of 1 or more.
pub(crate) fn add_answers<W: PositionWalk, S: ReachedNumbers>(
    here: &W,
    reached: &mut S,
) -> Result<(), Memory>
    requires room { HasRoomFor (over_kind (W.kind here.now)) (S.room reached.old) }
    ensures added { IfOk result (λ _. AreReachedWith (S.reached reached.old)
        ((answer_moves (over_kind (W.kind here.now))).Leads (W.held here.now))
        (S.reached reached.new)) }
    ensures room { IfOk result (λ _. S.room reached.new ≡ S.room reached.old) }
{
    for pebble in 0..here.board().pebbles() {
        add_answer(here, pebble, reached)?;
    }
    Ok(())
}

/// The same. Those of a request whose gap is in `expanded` are there: all requests of a gap lead to
/// the same, and without this a chain of 60 labels and four pebbles made seven million look-ups for
/// half a million classes.
pub(crate) fn add_new_answers<W: PositionWalk, S: ReachedNumbers>(
    here: &W,
    reached: &mut S,
    expanded: &mut S,
) -> Result<(), Memory>
    requires { MayTakeSteps (over_kind (W.kind here.now))
        (IsAnswerStep (over_kind (W.kind here.now)))
        (step_sets S.reached S.room reached.old expanded.old) }
    ensures { IfOk result (λ _. TakesSteps (over_kind (W.kind here.now))
        (IsAnswerStep (over_kind (W.kind here.now)))
        ((answer_moves (over_kind (W.kind here.now))).Leads (W.held here.now))
        (step_sets S.reached S.room reached.old expanded.old)
        (step_sets S.reached S.room reached.new expanded.new)) }
{
    for pebble in 0..here.board().pebbles() {
        add_new_answer(here, pebble, reached, expanded)?;
    }
    Ok(())
}

/// Adds the position after the best answer to a request of `pebble` where `here` is, if it has a
/// value of 1 or more. It is there if the request's gap is in `expanded`.
fn add_new_answer<W: PositionWalk, S: ReachedNumbers>(
    here: &W,
    pebble: u8,
    reached: &mut S,
    expanded: &mut S,
) -> Result<(), Memory>
    requires pebble { pebble < (over_kind (W.kind here.now)).board.pebbles }
    requires sets { MayTakeSteps (over_kind (W.kind here.now))
        (IsAnswerStep (over_kind (W.kind here.now)))
        (step_sets S.reached S.room reached.old expanded.old) }
    ensures { IfOk result (λ _. TakesSteps (over_kind (W.kind here.now))
        (IsAnswerStep (over_kind (W.kind here.now)))
        (IsAnswerStep (over_kind (W.kind here.now)) (W.held here.now) pebble)
        (step_sets S.reached S.room reached.old expanded.old)
        (step_sets S.reached S.room reached.new expanded.new)) }
{
    let gap = here.gap(pebble);
    if expanded.contains(gap) {
        return Ok(());
    }
    add_answer(here, pebble, reached)?;
    expanded.add(gap)?;
    Ok(())
}

/// Adds the position after the best answer to a request of `pebble` where `here` is, if it has a
/// value of 1 or more.
fn add_answer<W: PositionWalk, S: ReachedNumbers>(
    here: &W,
    pebble: u8,
    reached: &mut S,
) -> Result<(), Memory>
    requires pebble { pebble < (over_kind (W.kind here.now)).board.pebbles }
    requires position { IsPosition (over_kind (W.kind here.now)) (W.held here.now) }
    requires room { HasRoomFor (over_kind (W.kind here.now)) (S.room reached.old) }
    ensures added { IfOk result (λ _. AreReachedWith (S.reached reached.old)
        (IsAnswerStep (over_kind (W.kind here.now)) (W.held here.now) pebble)
        (S.reached reached.new)) }
    ensures room { IfOk result (λ _. S.room reached.new ≡ S.room reached.old) }
{
    if let Some(best) = here.best_answer(pebble) {
        if Value::Finite(0) < best.value {
            reached.add(here.after(pebble, best.label))?;
        }
    }
    Ok(())
}

/// Adds the positions after each legal answer to the best request where `here` is. Those of a
/// request whose gap is in `expanded` are there.
pub(crate) fn add_results<W: PositionWalk, S: ReachedNumbers>(
    here: &W,
    reached: &mut S,
    expanded: &mut S,
) -> Result<(), Memory>
    requires { MayTakeSteps (over_kind (W.kind here.now)) (LegalLeads (over_kind (W.kind here.now)))
        (step_sets S.reached S.room reached.old expanded.old) }
    ensures { IfOk result (λ _. TakesSteps (over_kind (W.kind here.now))
        (LegalLeads (over_kind (W.kind here.now)))
        ((request_moves (over_kind (W.kind here.now))).Leads (W.held here.now))
        (step_sets S.reached S.room reached.old expanded.old)
        (step_sets S.reached S.room reached.new expanded.new)) }
{
    let (_, request) = here.best_request();
    let Some(pebble) = request else {
        return Ok(());
    };
    let gap = here.gap(pebble);
    if expanded.contains(gap) {
        return Ok(());
    }
    add_legal(here, pebble, reached)?;
    expanded.add(gap)?;
    Ok(())
}

/// Adds the positions after each legal answer to a request of `pebble` where `here` is.
fn add_legal<W: PositionWalk, S: ReachedNumbers>(
    here: &W,
    pebble: u8,
    reached: &mut S,
) -> Result<(), Memory>
    requires pebble { pebble < (over_kind (W.kind here.now)).board.pebbles }
    requires room { HasRoomFor (over_kind (W.kind here.now)) (S.room reached.old) }
    ensures added { IfOk result (λ _. AreReachedWith (S.reached reached.old)
        (LegalLeads (over_kind (W.kind here.now)) (W.held here.now) pebble)
        (S.reached reached.new)) }
    ensures room { IfOk result (λ _. S.room reached.new ≡ S.room reached.old) }
{
    let legal = legal_labels(here.board(), here.held(), pebble);
    let mut labels = legal.walk();
    while let Some(label) = labels.take_next() {
        reached.add(here.after(pebble, label))?;
    }
    Ok(())
}
