//! A stage before the first round.

ghost use Rattle.std.specs.Prelude.{◌≡◌, ◌<◌, ◌≤◌, IfOk};
ghost use Rattle.board_text.specs.PlainBoard.{IsBoard};
ghost use Rattle.graphs.specs.Graph.{live_answers, lasts};
ghost use Rattle.graphs.specs.Numbered.{graph_of};
ghost use Rattle.positions.specs.Ranks.{configurations};
ghost use Rattle.solver.specs.Inside.Tables.{IsCounted, AreFirstWords};
ghost use Rattle.solver.specs.Inside.Opening.{IsUnlisted, IsOpened};

use crate::stage::Stage;
use board_text::Memory;
use gap_values::OPEN;
use graphs::{Graph, Numbering};
use index_lists::ListStore;
use positions::MAX_CONFIGURATIONS;
use std::alloc::Global;

impl<S: ListStore + Drop, N: Numbering> Stage<S, N> {
    /// A stage of `graph`, in which the configurations of value 0 are filed, in ascending order.
    pub(crate) fn open(alloc: Global, graph: Graph<N>) -> Result<Stage<S, N>, Memory>
        ensures game { IfOk result (λ stage. stage.game ≡ graph) }
        ensures opened { IfOk result (λ stage. IsOpened stage) }
        ensures board { IfOk result (λ _. IsBoard graph.board) }
        ensures few { IfOk result (λ _. (graph_of graph).configurations ≤ MAX_CONFIGURATIONS) }
        ensures small { IfOk result (λ _. configurations graph.board ≤ MAX_CONFIGURATIONS) }
    {
        let size = graph.configurations();
        let counts = first_counts(alloc, &graph)?;
        let values = first_words(alloc, &graph, &counts)?;
        let buckets = S::new(alloc, size, size + 1)?;
        let strikes = Vec::with_capacity(alloc, size as usize)?;
        let mut stage = Stage {
            graph,
            value: 0,
            values,
            counts,
            buckets,
            strikes,
        };
        stage.list_zeros();
        Ok(stage)
    }
}

impl<S: ListStore, N: Numbering> Stage<S, N> {
    /// Lists the configurations with the word 0, in ascending order.
    fn list_zeros(&mut self)
        requires { IsUnlisted self.old }
        ensures game { self.new.game ≡ self.old.game }
        ensures opened { IsOpened self.new }
    {
        for rank in 0..self.graph.configurations() {
            if self.values[rank as usize] == 0 {
                self.list(rank);
            }
        }
    }
}

/// The number of answers of each gap.
fn first_counts<N: Numbering>(alloc: Global, graph: &Graph<N>) -> Result<Vec<u32>, Memory>
    ensures { IfOk result (λ counts. IsCounted (graph_of graph.now)
        (lasts (graph_of graph.now) 0) counts.items) }
{
    let gaps = graph.gaps();
    let mut counts = Vec::with_capacity(alloc, gaps as usize)?;
    for gap in 0..gaps {
        counts.push_reserved(count_answers(graph, gap));
    }
    Ok(counts)
}

/// The number of answers of `gap`.
fn count_answers<N: Numbering>(graph: &Graph<N>, gap: u32) -> u32
    requires { gap < (graph_of graph.now).gaps }
    ensures { result ≡ live_answers (graph_of graph.now) (lasts (graph_of graph.now) 0) gap }
{
    graph.answers(gap).len()
}

/// The word of each configuration before the first round:
/// 0 if a request has no answer, else `OPEN`.
fn first_words<N: Numbering>(
    alloc: Global,
    graph: &Graph<N>,
    counts: &[u32],
) -> Result<Vec<u32>, Memory>
    requires { IsCounted (graph_of graph.now) (lasts (graph_of graph.now) 0) counts.now }
    ensures { IfOk result (λ words. AreFirstWords (graph_of graph.now) words.items) }
{
    let mut words = vec![in alloc; OPEN; graph.configurations() as usize]?;
    graph.zero_stuck(counts, &mut words);
    Ok(words)
}
