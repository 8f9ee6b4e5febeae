//! Configurations of the pebble game, their moves, gaps and values.
#![tactic(auto)]

mod claim;
mod column;
mod divisor;
mod label_set;
mod label_walk;
mod laws;
mod laws_of_gaps;
mod laws_of_ranks;
mod legal;
mod members;
mod moves;
mod side;
mod slow;
mod space;
mod too_large;
mod tuple_answers;
mod turns;
mod value;
mod writing;

pub use claim::Claim;
pub use label_set::{LabelSet, Labels};
pub use label_walk::LabelWalk;
pub use laws::{
    lasts_less, limits, one_dominator, one_has_a_tree, one_value_at_most, shown_claims_hold,
    tables_give_trees, values_by_requests, values_occur,
};
pub use laws_of_gaps::{
    answers_of_gaps, gaps_of_configurations, members_of_gaps, pebbles_are_alike,
};
pub use laws_of_ranks::{ranks_and_configurations, ranks_are_in_order};
pub use legal::legal_labels;
pub use members::Members;
pub use moves::LegalMoves;
pub use side::Side;
pub use slow::{is_legal, labeller_lasts, value_of};
pub use space::{MAX_CONFIGURATIONS, Space, is_small};
pub use too_large::TooLarge;
pub use tuple_answers::TupleAnswers;
pub use turns::Turns;
pub use value::Value;
pub use writing::write_labels;
