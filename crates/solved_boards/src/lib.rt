//! Boards that are solved for tests. A solver that was refused memory is opened once more.
#![tactic(auto)]

mod solved;

pub use solved::{class_solver_of, gap_values_of, solver_of, value, values_of, values_over};
