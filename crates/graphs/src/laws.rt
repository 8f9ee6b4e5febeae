//! Laws, each the contract of a function without a body.

ghost use Rattle.std.specs.Prelude.{◌≡◌, ◌↔◌, ◌<◌, ℕ, List, slice_index};
ghost use Rattle.board_text.specs.PlainBoard.{PlainBoard, IsBoard, IsConfiguration};
ghost use Rattle.positions.specs.Game.{Legal, moved};
ghost use Rattle.positions.specs.Value.{HasValue};
ghost use Rattle.positions.specs.declared.value.Value.{Value as ValueData};
ghost use Rattle.positions.specs.declared.value.Value.TheVariants.{Finite, Forever};
ghost use Rattle.graphs.specs.Answers.{IsAnswerIn};
ghost use Rattle.graphs.specs.Graph.{PlainGraph, IsGraph};
ghost use Rattle.graphs.specs.Lasting.{LastsExactly, LastsForever};
ghost use Rattle.graphs.specs.Numbered.{Numbered, graph_of, configuration_of};
ghost use Rattle.graphs.specs.NumberedRanks.{number_in, gap_in};
ghost use Rattle.graphs.specs.Shows.{ShowsGame};

/// The values of a graph that shows a board are those of the configurations that its numbers stand
/// for.
pub fn graphs_have_the_values_of_boards()
    ensures finite { (board : PlainBoard) → (graph : PlainGraph) → (at : ℕ → List ℕ)
        → IsGraph graph → ShowsGame board graph at → (x : ℕ) → (value : ℕ)
        → x < graph.configurations
        → LastsExactly graph x value ↔ HasValue board (at x) (Finite value) }
    ensures forever { (board : PlainBoard) → (graph : PlainGraph) → (at : ℕ → List ℕ)
        → IsGraph graph → ShowsGame board graph at → (x : ℕ) → x < graph.configurations
        → LastsForever graph x ↔ HasValue board (at x) Forever }
{}

/// The graph of a board, by either numbering, is a graph and shows the board.
pub fn numbered_graphs_show_their_boards()
    ensures graph { (n : Numbered) → IsBoard n.board → IsGraph (graph_of n) }
    ensures shows { (n : Numbered) → IsBoard n.board
        → ShowsGame n.board (graph_of n) (configuration_of n) }
{}

/// Each configuration has a number of the graph, and the configuration that this number stands for
/// has its value. A number stands for a configuration that has the number.
pub fn configurations_have_numbers()
    ensures below { (n : Numbered) → (configuration : List ℕ) → IsBoard n.board
        → IsConfiguration n.board configuration
        → number_in n configuration < (graph_of n).configurations }
    ensures value { (n : Numbered) → (configuration : List ℕ) → (value : ValueData)
        → IsBoard n.board
        → IsConfiguration n.board configuration
        → HasValue n.board configuration value
        ↔ HasValue n.board (configuration_of n (number_in n configuration)) value }
    ensures configuration { (n : Numbered) → (x : ℕ) → IsBoard n.board
        → x < (graph_of n).configurations
        → IsConfiguration n.board (configuration_of n x) }
    ensures number { (n : Numbered) → (x : ℕ) → IsBoard n.board → x < (graph_of n).configurations
        → number_in n (configuration_of n x) ≡ x }
{}

/// The gap of a pebble at a configuration has the configuration as its member with the pebble's
/// place, and the configuration after a move of the pebble as that with the new label. Its answers
/// are the legal labels.
pub fn gaps_answer_requests()
    ensures below { (n : Numbered) → (configuration : List ℕ) → (pebble : ℕ) → IsBoard n.board
        → IsConfiguration n.board configuration → pebble < n.board.pebbles
        → gap_in n configuration pebble < (graph_of n).gaps }
    ensures own { (n : Numbered) → (configuration : List ℕ) → (pebble : ℕ) → IsBoard n.board
        → IsConfiguration n.board configuration → pebble < n.board.pebbles
        → (graph_of n).member (gap_in n configuration pebble) (slice_index configuration pebble)
        ≡ number_in n configuration }
    ensures moved { (n : Numbered) → (configuration : List ℕ) → (pebble : ℕ) → (label : ℕ)
        → IsBoard n.board → IsConfiguration n.board configuration → pebble < n.board.pebbles
        → (graph_of n).member (gap_in n configuration pebble) label
        ≡ number_in n (moved configuration pebble label) }
    ensures legal { (n : Numbered) → (configuration : List ℕ) → (pebble : ℕ) → (label : ℕ)
        → IsBoard n.board → IsConfiguration n.board configuration → pebble < n.board.pebbles
        → Legal n.board configuration pebble label
        ↔ IsAnswerIn (graph_of n) (gap_in n configuration pebble) label }
{}
