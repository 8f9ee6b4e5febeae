//! Laws of label domains: consequences of a domain's rule and of other domains that are known.
#![tactic(auto)]

#[cfg(test)]
mod examples;
mod laws_of_answers;
mod laws_of_chains;
mod laws_of_claims;
mod laws_of_followers;
mod laws_of_products;
mod laws_of_starts;
mod laws_of_values;
mod residues_by_hand;
mod solving;

pub use laws_of_answers::{
    answers_depend_on_others, dominators_are_not_asked, no_label_is_a_lowest_label,
};
pub use laws_of_chains::{
    asked_labels_are_chains, chains_above_labels, chains_decide_what_lasts, closed_families_last,
    dominated_chains_last, dominators_carry_one_fewer, products_dominate_chains,
};
pub use laws_of_claims::{
    both_versions_show_the_same_claims, claims_hold_where_documents_show_them,
};
pub use laws_of_followers::{
    exchanged_labels_keep_values, fewer_pebbles_last, followers_last, freed_labels_last,
    renamed_labels_keep_values, shared_labels_count_once, unused_labels_can_go, wider_domains_last,
    withdrawals_change_nothing,
};
pub use laws_of_products::{
    few_labels_carry_many, large_products, nested_boards_are_products, products_carry_no_more,
    products_exist, products_last, products_last_as_their_factors, several_products_last,
};
pub use laws_of_starts::{
    chains_have_their_value, dominated_boards_last, one_label_is_the_best_start, orders_end,
    processes_need_labels, two_pebbles_last_on_cycles,
};
pub use laws_of_values::{
    Property, for_ever_is_a_closed_table, kept_properties_last, lasting_is_kept,
    values_compare_as_trees, values_solve_one_equation,
};
pub use residues_by_hand::{OnLabels, three_last_on_residues};
pub use solving::{Solved, solve_board};
