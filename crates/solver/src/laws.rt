//! Laws, each the contract of a function without a body.

ghost use Rattle.std.specs.Prelude.{◌≡◌, ℕ, suc, ◌<◌, ◌≤◌, ◌↔◌, List};
ghost use Rattle.index_lists.specs.Lists.{times};
ghost use Rattle.graphs.specs.Graph.{PlainGraph, IsGraph, live_answers};
ghost use Rattle.graphs.specs.Lasting.{LastsExactly};
ghost use Rattle.solver.specs.Striking.{stands, tally, IsToWin};

/// The facts of a graph on which rounds of several seats stand: answers that wait in a list are
/// counted by its entries, and the configurations of the next value are the open members of gaps
/// without an answer above the round's.
pub fn seats_strike_graphs()
    ensures waiting { (graph : PlainGraph) → IsGraph graph → (gap : ℕ) → (todo : List ℕ)
        → gap < graph.gaps
        → ((x : ℕ) → 0 < times x todo → x < graph.configurations) → ((x : ℕ) → times x todo ≤ 1)
        → live_answers graph (stands todo) gap ≡ tally graph.struck gap todo }
    ensures next { (graph : PlainGraph) → IsGraph graph → (round : ℕ) → (x : ℕ)
        → x < graph.configurations
        → IsToWin graph round x ↔ LastsExactly graph x (suc round) }
{}
