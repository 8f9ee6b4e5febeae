//! The values of a board, by workers that share each round.
#![tactic(auto)]

mod gate;
mod laws;
mod shared_seats;
mod solving;
mod tree;
mod worker;

pub use gate::{Gate, NoGate};
pub use laws::limits;
pub use solving::{MAX_WORKERS, MIN_SHARED, SHARED_FROM, solve_classes, solve_values};
