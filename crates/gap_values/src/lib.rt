//! Values found by gaps alone: a table of the rounds in which gaps close, and none of classes.
#![tactic(auto)]

mod class_rounds;
mod closing;
mod counting;
#[cfg(test)]
mod examples;
mod gap_sizes;
mod laws;
mod makers;
mod rounds;
mod sizes;
mod telling;
mod value_table;
mod values;
mod weight;

pub use closing::{OPEN, answer_set};
pub use counting::{count_gaps, has_few_gaps, kept_bytes};
pub use laws::gap_tables_have_values;
pub use makers::{ByWorkers, OnThisThread, by_workers};
pub use rounds::MAX_GAPS;
pub use sizes::Sizes;
pub use value_table::{Best, ValueTable};
pub use values::{GapValues, value_with};
