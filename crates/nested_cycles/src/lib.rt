//! Nested boards: the three-cycle, each of its labels replaced
//! by a copy of the board of one level less.
#![tactic(auto)]

mod copies;
mod domination;
mod game;
mod laws;
mod nested_boards;
mod replies;

pub use domination::nested_beats;
pub use game::{MAX_LEVELS, NestedGame};
pub use laws::{
    copies_in_a_cycle, half_of_all_pairs, limits, no_two_ways, one_nested_board, one_of_two,
    one_reply, words_and_numbers,
};
pub use nested_boards::{MAX_BOARD_LEVELS, nested_board};
pub use replies::{nested_good, nested_reply};
