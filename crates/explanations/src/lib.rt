//! Explanations of faults, of refused documents and of wrong use, one line each, for a person or a
//! log.
#![tactic(auto)]

mod hints;
mod inputs;
mod lines;
mod note_lines;
mod notes;
mod parts;
mod proof_hints;
mod sizes;
mod symmetry_hints;
mod trouble;
mod usage;

pub use inputs::{Inputs, Origin};
pub use note_lines::write_note;
pub use notes::Note;
pub use trouble::Trouble;
