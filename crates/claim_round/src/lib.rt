//! A round of a solver that threads share: a word for the count of each gap, and a word for the
//! value of each configuration.
//!
//! A round is opened with one seat, which has all to strike. Seats are split and joined, and each
//! strikes and claims on its own, from whatever thread; no call waits for another. The rule of the
//! words and of all seats, between any two steps of any threads, is that they have a history: one
//! run of the machine, in which each call has its index.
#![tactic(auto)]

mod closed;
mod room;
mod round;
mod seat;
mod table;
mod words;

pub use closed::Closed;
pub use round::{Claim, NotClosed, SharedRound, Struck, Why};
pub use seat::RoundSeat;
