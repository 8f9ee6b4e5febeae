//! A solver's words and lists, and the changes that a round makes to them.

ghost use Rattle.std.specs.Prelude.{◌≡◌, ℕ, ◌+◌, ◌-◌, ◌<◌, true, List, [], ◌∷◌, length, filter};
ghost use Rattle.index_lists.specs.Lists.{times};
ghost use Rattle.graphs.specs.Graph.{is_struck};
ghost use Rattle.graphs.specs.Numbered.{graph_of};
ghost use Rattle.solver.specs.Inside.Tables.{is_open};
ghost use Rattle.solver.specs.Inside.Stage.{PlainStage, filed_at, due_strikes, rank_listed};
ghost use Rattle.solver.specs.Inside.Stage.{rank_filed, at_next_value, strikes_copied, IsFiled};
ghost use Rattle.solver.specs.Inside.Stage.{IsKeptStage, Closes, IsStriking};

mod ended_round;
mod opening;
mod reading;

use gap_values::OPEN;
use graphs::{Graph, MAX_PLACES, Numbering};
use index_lists::ListStore;
use std::marker::Model;

/// A word for each configuration and each gap, and the configurations that are filed at each value,
/// while configurations are filed at one value after the other.
#[derive(Drop)]
pub(crate) struct Stage<S: ListStore, N: Numbering> {
    graph: Graph<N>,
    /// The value that configurations are filed at now.
    value: u32,
    /// The value of each configuration that has one, else `OPEN`.
    values: Vec<u32>,
    /// For each gap the number of live answers: those that are not struck.
    counts: Vec<u32>,
    /// For each value the configurations that are filed at it.
    buckets: S,
    /// Room for the configurations that a round copies from the store.
    /// Between two rounds nobody reads it.
    strikes: Vec<u32>,
}

impl<S: ListStore, N: Numbering> Model for Stage<S, N> {
    ghost use Rattle.std.specs.Prelude.{◌≡◌, ◌≤◌, vec_capacity};
    ghost use Rattle.graphs.specs.Numbered.{graph_of};
    ghost use Rattle.solver.specs.Inside.Stage.{PlainStage, stage_of, IsSmall, AreWide, AreStored};

    ghost Value = { PlainStage };

    ghost view = { λ s. stage_of s.graph s.value s.values.items s.counts.items
        (S.state s.buckets) s.strikes.items };

    ghost invariant = { λ s. IsSmall (graph_of s.graph) s.value
        × AreWide (graph_of s.graph) s.values.items s.counts.items
        × AreStored (graph_of s.graph) (S.state s.buckets)
        × ((graph_of s.graph).configurations ≤ vec_capacity s.strikes) };
}

impl<S: ListStore, N: Numbering> Stage<S, N> {
    /// Appends `rank`, which is in no list, to the list of the value.
    fn list(&mut self, rank: u32)
        requires rank_in { rank < (graph_of self.old.game).configurations }
        requires free { (v : ℕ) → times rank (filed_at self.old v) ≡ 0 }
        ensures { self.new ≡ rank_listed self.old rank }
    {
        self.buckets.push_back(self.value, rank);
    }

    /// Files the open configuration `rank` at the value.
    fn file(&mut self, rank: u32)
        requires rank_in { rank < (graph_of self.old.game).configurations }
        requires filed { IsFiled self.old }
        requires was_open { is_open self.old.values rank ≡ true }
        ensures { self.new ≡ rank_filed self.old rank }
    {
        self.values[rank as usize] = self.value;
        self.list(rank);
    }

    /// Files the open members of `gap` at the value.
    fn close_gap(&mut self, gap: u32)
        requires gap_in { gap < (graph_of self.old.game).gaps }
        requires filed { IsFiled self.old }
        ensures { Closes self.old gap self.new }
    {
        let mut members = [0; MAX_PLACES];
        self.graph.write_members(gap, &mut members);
        for place in 0..self.graph.places() {
            let rank = members[place as usize];
            if self.values[rank as usize] == OPEN {
                self.file(rank);
            }
        }
    }

    /// Strikes an answer of `gap`, `rank`: the gap loses an answer,
    /// and its open members are filed if none is left.
    fn strike(&mut self, rank: u32, gap: u32)
        requires striking { (rest : List ℕ) × IsStriking self.old (rank ∷ rest) }
        requires gap { gap ≡ (graph_of self.old.game).struck rank }
        ensures struck { (rest : List ℕ) → IsStriking self.old (rank ∷ rest)
            → IsStriking self.new rest }
        ensures kept { IsKeptStage self.old self.new }
        ensures strikes { self.new.strikes ≡ self.old.strikes }
    {
        let left = self.counts[gap as usize] - 1;
        self.counts[gap as usize] = left;
        if left == 0 {
            self.close_gap(gap);
        }
    }

    /// Strikes the configurations that are filed at the value before and are answers.
    pub(crate) fn strike_all(&mut self)
        requires round { 0 < self.old.value }
        requires striking { IsStriking self.old (due_strikes self.old) }
        ensures struck { IsStriking self.new [] }
        ensures kept { IsKeptStage self.old self.new }
    {
        self.take_bucket();
        self.strike_taken();
    }

    /// Copies the configurations that are filed at the value before into `strikes`.
    fn take_bucket(&mut self)
        requires { 0 < self.old.value }
        ensures { self.new ≡ strikes_copied self.old }
    {
        self.strikes.clear();
        self.buckets.append_list(self.value - 1, &mut self.strikes);
    }

    /// Strikes those of the configurations in `strikes` that are answers.
    fn strike_taken(&mut self)
        requires ranks { (rank : ℕ) → 0 < times rank self.old.strikes
            → rank < (graph_of self.old.game).configurations }
        requires striking { IsStriking self.old
            (filter (is_struck (graph_of self.old.game)) self.old.strikes) }
        ensures struck { IsStriking self.new [] }
        ensures kept { IsKeptStage self.old self.new }
    {
        for index in 0..self.strikes.len() {
            let rank = self.strikes[index];
            if let Some(gap) = self.graph.answered_gap(rank) {
                self.strike(rank, gap);
            }
        }
    }

    /// The number of configurations that are filed at the value.
    pub(crate) fn filed(&self) -> u32
        ensures { result ≡ length (filed_at self.now self.now.value) }
    {
        self.buckets.len(self.value)
    }

    /// Goes on to the next value.
    pub(crate) fn begin_next_value(&mut self)
        requires { self.old.value < (graph_of self.old.game).configurations }
        ensures { self.new ≡ at_next_value self.old }
    {
        self.value += 1;
    }
}
