//! Best answers, best requests, and the documents that show the value of a board's start: by
//! configurations, and by classes.
#![tactic(auto)]

mod answer;
mod best_moves;
mod class_documents;
mod class_rows;
mod class_sections;
mod documents;
mod gap_moves;
mod gap_walk;
mod laws;
mod laws_of_class_documents;
mod laws_of_documents;
mod laws_of_sides;
mod laws_of_symmetric_documents;
mod line_walk;
mod lines;
mod listed_numbers;
mod marked_numbers;
mod marks;
mod normal_walk;
mod position_documents;
mod position_walk;
mod rank_moves;
mod rank_sections;
mod reached_numbers;
mod sections;
mod sides;
mod steps;
mod symmetric_documents;
mod text;
mod unmade;
mod walk;

pub use best_moves::{best_answer, best_request};
pub use class_documents::document_by_classes_in_parts;
pub use documents::document;
pub use gap_moves::GapMoves;
pub use laws::{best_answers_last, best_requests_end, one_best_answer, one_best_request};
pub use laws_of_class_documents::{
    claims_hold_where_class_documents_show_them, class_documents_break_no_rule,
    class_documents_have_the_form, each_board_has_a_class_document,
    finite_values_are_less_than_the_number_of_gaps, one_class_document_of_a_board,
};
pub use laws_of_documents::{
    documents_break_no_rule, documents_claim_what_holds, documents_have_their_form,
    documents_mean_their_value, documents_of_small_boards, documents_show_their_claim,
    each_board_has_a_document, one_document_of_a_board,
};
pub use laws_of_sides::one_side_shows_its_part;
pub use laws_of_symmetric_documents::{
    documents_up_to_symmetries_break_no_rule, documents_up_to_symmetries_have_the_form,
    documents_without_maps_are_documents_by_classes, each_board_has_a_document_up_to_symmetries,
    one_document_up_to_symmetries_of_a_board,
};
pub use position_documents::MadeDocument;
pub use symmetric_documents::document_up_to_symmetries;
pub use text::{DocumentText, document_text, document_text_in_parts};
pub use unmade::Unmade;
