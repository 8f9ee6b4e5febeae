//! A game as numbers of configurations and of gaps: the members of each gap, and the gap in which
//! each configuration is an answer.
#![tactic(auto)]

mod by_classes;
mod by_ranks;
mod families;
mod graph;
mod laws;
mod numbering;
mod stuck;

pub use by_classes::ByClasses;
pub use by_ranks::ByRanks;
pub use graph::{Graph, MAX_PLACES};
pub use laws::{
    configurations_have_numbers, gaps_answer_requests, graphs_have_the_values_of_boards,
    numbered_graphs_show_their_boards,
};
pub use numbering::Numbering;
