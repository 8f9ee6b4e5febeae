//! The two ways in which the configurations of the next value are found and filed.

ghost use Rattle.std.specs.Prelude.{◌≡◌, false, ℕ, List, [], ◌<◌};
ghost use Rattle.solver.specs.Ending.{IsRoundEnd};
ghost use Rattle.solver.specs.Solving.{Solving};
ghost use Rattle.solver.specs.Inside.Stage.{as_solving, due_strikes, filed_at, IsKeptStage};
ghost use Rattle.solver.specs.Inside.Stage.{IsStriking, IsUnstruck};

use crate::end::RoundEnd;
use crate::stage::Stage;
use graphs::Numbering;
use index_lists::ListStore;

/// A way to find the configurations of the next value: by strikes, or by the end of a round of
/// others. One function has the proof for both that a value is closed.
pub(crate) trait NextValue {
    /// The condition on a solver that isn't done for this way to serve it.
    ghost serves: { Self → Solving → Type 0 };

    /// What is known of their order: the list in which they are filed.
    ghost files: { Self → List ℕ → Type 0 };

    /// Files the configurations of the next value: all is struck then.
    fn file<S: ListStore, N: Numbering>(&self, stage: &mut Stage<S, N>)
        requires round { 0 < stage.old.value }
        requires striking { IsStriking stage.old (due_strikes stage.old) }
        requires unstruck { IsUnstruck stage.old }
        requires serves { serves self.now (as_solving stage.old false) }
        ensures struck { IsStriking stage.new [] }
        ensures kept { IsKeptStage stage.old stage.new }
        ensures order { files self.now (filed_at stage.new stage.new.value) };
}

/// By striking the configurations that the round has to strike.
pub(crate) struct ByStrikes;

impl NextValue for ByStrikes {
    ghost serves = { λ _ _. Unit {0} };

    ghost files = { λ _ _. Unit {0} };

    fn file<S: ListStore, N: Numbering>(&self, stage: &mut Stage<S, N>) {
        stage.strike_all();
    }
}

/// From a round that was worked off.
#[derive(Drop)]
pub(crate) struct FromEnd<'a, E: RoundEnd>(pub(crate) &'a E);

impl<'a, E: RoundEnd> NextValue for FromEnd<'a, E> {
    ghost serves = { λ from solver. IsRoundEnd solver (E.won_list from.0.now)
        (E.counts from.0.now) };

    ghost files = { λ from filed. filed ≡ E.won_list from.0.now };

    fn file<S: ListStore, N: Numbering>(&self, stage: &mut Stage<S, N>) {
        stage.file_end(self.0);
    }
}
