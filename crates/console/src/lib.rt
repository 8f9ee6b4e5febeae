//! The standard streams of a program, what of them is a terminal, and the words that a person is
//! told there, also while a long work is done.
#![tactic(auto)]

mod showing;
mod streams;
mod watch;

pub use showing::{write_digits, write_line, write_more, write_shown};
pub use streams::{Console, Terminals};
pub use watch::{NoWatch, Watch};
