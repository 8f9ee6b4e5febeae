//! Retrograde analysis: the value of each configuration of a board, found backwards in rounds.
//!
//! A round takes the configurations of one value, the smallest first, and strikes each from the
//! answers of the gap that leads to it. The members of a gap that has no answer left get the next
//! value. Configurations that no round reaches last for ever.
#![tactic(auto)]

mod end;
mod fault;
mod laws;
mod next_value;
mod progress;
mod sizes;
mod solver;
mod source_walk;
mod stage;
mod values;
mod word;

pub use end::RoundEnd;
pub use fault::SolveFault;
pub use laws::seats_strike_graphs;
pub use progress::Progress;
pub use solver::{Solver, Unfinished};
pub use source_walk::SourceWalk;
pub use values::Values;
pub use word::value_of;
