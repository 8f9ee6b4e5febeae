//! Reading a stage.

ghost use Rattle.std.specs.Prelude.{◌≡◌, ℕ, ◌+◌, ◌-◌, ◌<◌, ◌≤◌, Some, None, length, slice_index};
ghost use Rattle.std.specs.Prelude.{slice_get, filter, vec_capacity, IfOk};
ghost use Rattle.index_lists.specs.Lists.{times};
ghost use Rattle.graphs.specs.Graph.{is_struck};
ghost use Rattle.graphs.specs.Numbered.{graph_of};
ghost use Rattle.solver.specs.Inside.Tables.{open_members};
ghost use Rattle.solver.specs.Inside.Stage.{filed_at, due_strikes};

use crate::source_walk::SourceWalk;
use crate::stage::Stage;
use board_text::Memory;
use graphs::{Graph, Numbering};
use index_lists::ListStore;
use std::alloc::Global;

impl<S: ListStore + Drop, N: Numbering> Stage<S, N> {
    /// The graph, the value that configurations are filed at, the words, and room for as many
    /// numbers as that value.
    pub(crate) fn into_parts(self) -> (Graph<N>, u32, Vec<u32>, Vec<u32>)
        ensures graph { result.0 ≡ self.game }
        ensures value { result.1 ≡ self.value }
        ensures words { result.2.items ≡ self.values }
        ensures room { result.1 ≤ vec_capacity result.3 }
    {
        let Stage {
            graph,
            value,
            values,
            strikes,
            ..
        } = self;
        (graph, value, values, strikes)
    }
}

impl<S: ListStore, N: Numbering> Stage<S, N> {
    /// The graph.
    pub(crate) fn graph(&self) -> &Graph<N>
        ensures { result.now ≡ self.now.game }
    {
        &self.graph
    }

    /// The value that configurations are filed at.
    pub(crate) fn value(&self) -> u32
        ensures { result ≡ self.now.value }
    {
        self.value
    }

    /// The words of all configurations.
    pub(crate) fn words(&self) -> &[u32]
        ensures { result.now ≡ self.now.values }
    {
        &self.values
    }

    /// The counts of all gaps.
    pub(crate) fn counts(&self) -> &[u32]
        ensures { result.now ≡ self.now.counts }
    {
        &self.counts
    }

    /// The word of the configuration `rank`.
    pub(crate) fn word(&self, rank: u32) -> u32
        requires { rank < (graph_of self.now.game).configurations }
        ensures { result ≡ slice_index self.now.values rank }
    {
        self.values[rank as usize]
    }

    /// The count of `gap`.
    pub(crate) fn count(&self, gap: u32) -> u32
        requires { gap < (graph_of self.now.game).gaps }
        ensures { result ≡ slice_index self.now.counts gap }
    {
        self.counts[gap as usize]
    }

    /// The number of configurations that are filed at the value before.
    pub(crate) fn filed_before(&self) -> u32
        requires { 0 < self.now.value }
        ensures { result ≡ length (filed_at self.now (self.now.value - 1)) }
    {
        self.buckets.len(self.value - 1)
    }

    /// The configurations that a round strikes:
    /// those filed at the value before that are answers.
    pub(crate) fn due(&self, alloc: Global) -> Result<Vec<u32>, Memory>
        requires { 0 < self.now.value }
        ensures { IfOk result (λ ranks. ranks.items ≡ due_strikes self.now) }
    {
        let bucket = self.value - 1;
        let mut filed = Vec::with_capacity(alloc, self.buckets.len(bucket) as usize)?;
        self.buckets.append_list(bucket, &mut filed);
        self.answers_among(alloc, &filed)
    }

    /// Those of `ranks` that are answers in some gap.
    fn answers_among(&self, alloc: Global, ranks: &[u32]) -> Result<Vec<u32>, Memory>
        requires { (rank : ℕ) → 0 < times rank ranks.now
            → rank < (graph_of self.now.game).configurations }
        ensures { IfOk result (λ found. found.items
            ≡ filter (is_struck (graph_of self.now.game)) ranks.now) }
    {
        let mut found = Vec::with_capacity(alloc, ranks.len())?;
        for rank in ranks {
            if self.graph.answered_gap(*rank).is_some() {
                found.push_reserved(*rank);
            }
        }
        Ok(found)
    }

    /// The first configuration that is filed at `value`.
    pub(crate) fn first_filed(&self, value: u32) -> Option<u32>
        ensures { result ≡ slice_get (filed_at self.now value) 0 }
    {
        if value > self.graph.configurations() {
            return None;
        }
        self.buckets.first(value)
    }

    /// The configuration after `rank`, among those filed at the
    /// same value. One that isn't filed has none.
    pub(crate) fn next_filed(&self, rank: u32) -> Option<u32>
        requires { rank < (graph_of self.now.game).configurations }
        ensures behind { (value : ℕ) → (index : ℕ)
            → slice_get (filed_at self.now value) index ≡ Some rank
            → result ≡ slice_get (filed_at self.now value) (index + 1) }
        ensures not_filed { ((value : ℕ) → (index : ℕ)
            → slice_get (filed_at self.now value) index ≡ Some rank → ⊥)
            → result ≡ None }
    {
        self.buckets.next(rank)
    }

    /// A walk over the open members of `gap`.
    pub(crate) fn sources(&self, gap: u32) -> SourceWalk<'_, N>
        requires { gap < (graph_of self.now.game).gaps }
        ensures { result ≡ open_members (graph_of self.now.game) self.now.values gap }
    {
        SourceWalk {
            graph: &self.graph,
            words: &self.values,
            gap,
            place: 0,
        }
    }
}
