//! A round of retrograde analysis as a machine on plain data:
//! seats make one step after the other, in any order.
//!
//! No command runs the machine. The history of a round that threads share is a run of it, and the
//! laws of its steps are those of shared rounds. The names of the solver, whose rounds these are,
//! are passed on from the crate below.
#![tactic(auto)]

mod laws_of_rounds;
mod round_state;
mod seat;
mod step;

pub use laws_of_rounds::{
    answers_have_a_cause, rounds_open_lawfully, steps_keep_rounds_lawful,
    worked_off_rounds_have_won_all,
};
pub use positions::Value;
pub use round_state::RoundState;
pub use solver::{Progress, RoundEnd, SolveFault, Solver, SourceWalk, Unfinished, Values};
pub use step::{Seen, Step, StepFault};
