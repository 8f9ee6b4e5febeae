//! The program as a library: from the words of its command line to its exit status, over a folder
//! and a console.
#![tactic(auto)]

mod ended;
mod fault_lines;
mod files;
mod folder;
mod jobs;
mod outcome;
mod plays;
mod serving;
mod serving_laws;
mod value_texts;
mod watched;

pub use explanations::Trouble;
pub use folder::{Folder, System};
pub use serving::{Words, serve};
pub use serving_laws::one_serving;
