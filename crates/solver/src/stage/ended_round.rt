//! Filing the configurations that a finished round has won.

ghost use Rattle.std.specs.Prelude.{◌≡◌, ℕ, ◌<◌, ◌≤◌, true, false, [], length, slice_set};
ghost use Rattle.index_lists.specs.Lists.{times};
ghost use Rattle.graphs.specs.Numbered.{graph_of};
ghost use Rattle.solver.specs.Ending.{IsRoundEnd};
ghost use Rattle.solver.specs.Inside.Tables.{is_open};
ghost use Rattle.solver.specs.Inside.Stage.{with_counts, as_solving, filed_at, IsSmall, IsFiled};
ghost use Rattle.solver.specs.Inside.Stage.{IsKeptStage, IsStriking, IsUnstruck, FilesAll};
ghost use Rattle.solver.specs.Inside.Stage.{TakesCounts};

use crate::end::RoundEnd;
use crate::stage::Stage;
use graphs::Numbering;
use index_lists::ListStore;

impl<S: ListStore, N: Numbering> Stage<S, N> {
    /// Files the configurations that the finished round `end` has won, in their order,
    /// and takes over its counts: all is struck then.
    pub(crate) fn file_end<E: RoundEnd>(&mut self, end: &E)
        requires unstruck { IsUnstruck self.old }
        requires end { IsRoundEnd (as_solving self.old false) (E.won_list end.now)
            (E.counts end.now) }
        ensures struck { IsStriking self.new [] }
        ensures kept { IsKeptStage self.old self.new }
        ensures order { filed_at self.new self.new.value ≡ E.won_list end.now }
    {
        self.file_all(end.won());
        self.take_counts(end);
    }

    /// Files the open configurations `ranks` at the value in their order, each of which is listed
    /// once.
    fn file_all(&mut self, ranks: &[u32])
        requires small { IsSmall (graph_of self.old.game) self.old.value }
        requires filed { IsFiled self.old }
        requires open { (rank : ℕ) → 0 < times rank ranks.now
            → (rank < (graph_of self.old.game).configurations)
            × (is_open self.old.values rank ≡ true) }
        requires once { (rank : ℕ) → times rank ranks.now ≤ 1 }
        ensures { FilesAll self.old ranks.now self.new }
    {
        for rank in ranks {
            self.file(*rank);
        }
    }

    /// Takes over the counts of the finished round `end`.
    fn take_counts<E: RoundEnd>(&mut self, end: &E)
        requires wide { length (E.counts end.now) ≡ (graph_of self.old.game).gaps }
        requires counted { length self.old.counts ≡ (graph_of self.old.game).gaps }
        ensures { TakesCounts self.old (E.counts end.now) self.new }
    {
        for gap in 0..self.graph.gaps() {
            self.set_count(gap, end.count_of(gap));
        }
    }

    /// Sets the count of `gap` to `count`.
    fn set_count(&mut self, gap: u32, count: u32)
        requires { gap < (graph_of self.old.game).gaps }
        ensures { self.new ≡ with_counts self.old (slice_set self.old.counts gap count) }
    {
        self.counts[gap as usize] = count;
    }
}
