//! Lists of nodes, plain and linked by index, under one contract.
#![tactic(auto)]

mod laws;
mod link_lists;
mod plain_lists;
mod store;

pub use laws::{lists_without_a_node, nodes_by_index, nodes_in_lists};
pub use link_lists::LinkLists;
pub use plain_lists::PlainLists;
pub use store::ListStore;
