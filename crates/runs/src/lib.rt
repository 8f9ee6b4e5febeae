//! The commands as a library: from the bytes of texts in memory to the bytes of their answers, and
//! the same over readers and writers.
#![tactic(auto)]

mod boards;
mod chaining;
mod checking;
mod class_solving;
mod fault;
mod given_symmetries;
mod joined;
mod laws;
mod nesting;
mod notices;
mod output;
mod playing;
mod reading;
mod reporting;
mod solving;
mod starting;
mod summaries;
mod symmetric_solving;
mod told_values;
mod verdicts;
mod work;
mod writing;

pub use chaining::Chaining;
pub use checking::{
    JoinedRun, MAX_JOINED_BYTES, MAX_PROOF_BYTES, run_check, run_joined, run_joined_with_text,
};
pub use fault::{RunFault, SymmetriesFault};
pub use given_symmetries::MAX_SYMMETRIES_BYTES;
pub use joined::{board_length, one_board_length};
pub use laws::{
    accepted_claims_hold, class_solutions_are_accepted, limits, printed_documents_are_accepted,
    report_or_fault, reports_add_up, side_solution_or_fault, solution_or_fault,
    solved_boards_show_their_value, symmetric_solutions_are_accepted,
    symmetries_leave_few_orbits_or_a_fault, written_documents_mean_the_value,
};
pub use nesting::run_nested;
pub use playing::{Playing, run_climb, run_play};
pub use reading::MAX_BOARD_BYTES;
pub use reporting::{report_text_alone, run_report};
pub use solving::{run_solve, solve_text_alone};
pub use summaries::Summary;
pub use verdicts::{DocumentVersion, Verdict, version_of};
pub use work::Work;
pub use writing::write_text;
