//! Strategy documents: a claim on a board's value, with the strategies that should show it, and
//! their text; and the text of symmetries by themselves.
#![tactic(auto)]

mod claims;
mod class_proof;
mod class_rows;
mod fault;
mod laws;
mod maps;
mod numbers;
mod parsing;
mod parts;
mod printing;
mod proof;
mod ranked_rows;
mod row_heads;
mod row_lines;
mod row_text;
mod row_words;
mod rows;
mod sections;
mod symmetries_text;
mod symmetry_proof;

pub use claims::write_claim;
pub use class_proof::{AdversaryClassRow, ClassProof, ClassRow, LabellerClassRow, MAX_CLASS_ROWS};
pub use fault::{ProofFault, ProofKind};
pub use laws::{
    class_documents_have_no_fault, documents_have_no_fault, limits, one_class_document,
    one_class_text_fault, one_document, one_fault, one_row_of_a_rank, one_symmetries_fault,
    one_symmetry_document, one_symmetry_text_fault, symmetries_have_no_fault,
    symmetry_documents_have_no_fault,
};
pub use numbers::{arranged_order, class_order, moved_order, places_at, places_order};
pub use parsing::{parse, parse_classes, parse_symmetric};
pub use positions::{Claim, Turns};
pub use printing::{first_lines, print, print_classes, print_classes_in_parts, print_symmetric};
pub use proof::{AdversaryRow, LabellerRow, MAX_TURNS, Proof, Ranked};
pub use row_heads::RowHead;
pub use row_text::{PlaceWords, RowText};
pub use symmetries_text::parse_symmetries;
pub use symmetry_proof::{Images, MAX_MAPS, SymmetryProof};
