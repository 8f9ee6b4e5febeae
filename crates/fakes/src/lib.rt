//! Parts that tests share: the texts of boards, of documents and of plays, boards that are made
//! or read, drawn numbers, readers and writers that are slow or that fail, asking once more if
//! memory was refused, and where two texts differ.
#![tactic(auto)]

mod again;
pub mod boards;
pub mod documents;
mod draws;
mod ends;
mod nested;
pub mod plays;
mod shapes;
mod text_differences;
mod texts;
mod values;

pub use again::once_more;
pub use draws::Draws;
pub use ends::{Broken, Drip, Failing, Interrupted, Trickle};
pub use nested::make_nested;
pub use shapes::{Shape, shaped};
pub use text_differences::TextDifference;
pub use texts::{build_board, largest_text, print_board, read_board};
pub use values::{is_configuration, value_at};
