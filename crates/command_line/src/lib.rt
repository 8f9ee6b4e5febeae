//! Reads the words of the command line into the job that they ask for.
#![tactic(auto)]

mod asked;
mod commands;
mod explaining;
mod laws;
mod words;

pub use asked::{BoardLimit, Job, JobFault, MAX_WORKERS};
pub use explaining::{asks_to_explain, words_of_job};
pub use laws::{faultless_words_are_taken, limits, words_ask_for_one_answer};
pub use words::job;
