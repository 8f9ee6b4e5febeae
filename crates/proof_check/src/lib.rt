//! Checks whether the rows of a strategy document show its claim, without the board's values: of a
//! document by configurations, by classes, or up to symmetries.
#![tactic(auto)]

mod adversary;
mod checked_row;
mod checker;
mod checking;
mod class_adversary;
mod class_checking;
mod class_fault;
mod class_labeller;
mod class_laws;
mod class_writing;
mod fault;
mod gap_bounds;
mod labeller;
mod laws;
mod least_rows;
mod row_index;
mod row_numbers;
mod searched_numbers;
mod symmetry_checking;
mod symmetry_fault;
mod symmetry_laws;
mod turns;

pub use checking::{Shown, check};
pub use class_checking::check_classes;
pub use class_fault::ClassFault;
pub use class_laws::{
    class_rules_show, classes_are_told_by_their_numbers, one_class_fault,
    unbroken_class_rules_leave_no_fault,
};
pub use class_writing::write_class;
pub use fault::CheckFault;
pub use laws::{one_check_fault, rules_show, unbroken_rules_leave_no_fault};
pub use positions::Side;
pub use row_numbers::RowNumbers;
pub use searched_numbers::SearchedNumbers;
pub use symmetries::{MAX_ELEMENTS, MapFault};
pub use symmetry_checking::{check_symmetric, wrong_map};
pub use symmetry_fault::SymmetryFault;
pub use symmetry_laws::{
    claims_hold_where_symmetric_documents_show_them, one_symmetry_fault,
    unbroken_symmetry_rules_leave_no_fault, without_maps_documents_are_by_classes,
};
