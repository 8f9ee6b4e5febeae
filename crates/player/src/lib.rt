//! Plays of the pebble game with a person, who is the adversary or the labeller.
#![tactic(auto)]

mod adversary_side;
mod climbing;
mod end;
mod game;
mod labeller_side;
mod laws;
mod line_meaning;
mod lines;
mod nested_laws;
mod nested_writing;
mod prompts;
mod turns;
mod writing;

pub use adversary_side::{AsAdversary, play_adversary_side};
pub use climbing::{AsClimber, play_nested};
pub use end::{PlayEnd, PlayFault};
pub use game::{Game, Opened, play};
pub use labeller_side::{AsLabeller, play_labeller_side};
pub use laws::{best_play_ends_by_the_value, limits, one_transcript, plays_last_by_the_value};
pub use nested_laws::nested_boards_last_for_ever;
