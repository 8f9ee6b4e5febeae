//! The rows of a document by the numbers of their arranged places.

ghost use Rattle.std.specs.Prelude.{◌≡◌, ℕ, List, IfOk, MatchOption};
ghost use Rattle.board_text.specs.PlainBoard.{IsBoard, IsConfiguration};
ghost use Rattle.proof_text.specs.Arranged.{document_number};
ghost use Rattle.proof_text.specs.Documents.{IsClassDocument};
ghost use Rattle.proof_check.specs.RowNumbers.{AreNumbersOfRows, class_numbers, places_of};
ghost use Rattle.proof_check.specs.Inside.RowSearch.{AreClassesInOrder, HasNoClass, IsTheRow};

use crate::searched_numbers::SearchedNumbers;
use board_text::{Board, Memory};
use proof_text::{ClassProof, ClassRow, places_order};
use std::alloc::Global;

/// The numbers of the classes of a document's rows in the order of documents, row by row. They are
/// made once and halved: halving rows, place by place, took two thirds of a check.
#[derive(Drop)]
pub struct RowNumbers {
    pub labeller: SearchedNumbers,
    pub adversary: SearchedNumbers,
}

impl RowNumbers {
    /// The numbers of the rows of `proof`, a document for `board`.
    pub fn of(alloc: Global, board: &Board, proof: &ClassProof) -> Result<RowNumbers, Memory>
        requires { IsClassDocument board.now proof.now }
        ensures { IfOk result (AreNumbersOfRows board.now proof.now) }
    {
        Ok(RowNumbers {
            labeller: numbers_of(alloc, board, &proof.labeller)?,
            adversary: numbers_of(alloc, board, &proof.adversary)?,
        })
    }
}

/// The numbers of the classes of `rows`, in their order.
fn numbers_of<R: ClassRow>(
    alloc: Global,
    board: &Board,
    rows: &[R],
) -> Result<SearchedNumbers, Memory>
    requires { AreClassesInOrder board.now R.at rows.now }
    ensures { IfOk result (λ numbers. numbers.items ≡ class_numbers board.now R.at rows.now) }
{
    let mut numbers = Vec::with_capacity(alloc, rows.len())?;
    for row in rows {
        numbers.push(row_number(board, row))?;
    }
    SearchedNumbers::new(alloc, numbers)
}

/// The places of the class of `row`.
pub(crate) fn row_places<'r, R: ClassRow>(board: &Board, row: &'r R) -> &'r [u16]
    ensures value { result.now ≡ places_of board.now R.at row.now }
    ensures is_board { IsBoard board.now }
{
    &row.at()[..board.pebbles() as usize]
}

/// The number of the class of `row` in the order of documents.
pub(crate) fn row_number<R: ClassRow>(board: &Board, row: &R) -> u64
    requires { IsConfiguration board.now (places_of board.now R.at row.now) }
    ensures { result ≡ document_number board.now.labels (places_of board.now R.at row.now) }
{
    places_order(board, row_places(board, row))
}

/// The row whose class has this `number` in the order of documents, if there is one among `rows`,
/// which have these `numbers`.
pub(crate) fn find<'r, R: ClassRow>(
    board: &Board,
    rows: &'r [R],
    numbers: &SearchedNumbers,
    number: u64,
) -> Option<&'r R>
    requires rows { AreClassesInOrder board.now R.at rows.now }
    requires numbers { numbers.now.items ≡ class_numbers board.now R.at rows.now }
    ensures { (places : List ℕ) → IsConfiguration board.now places
        → number ≡ document_number board.now.labels places
        → MatchOption result (HasNoClass board.now R.at rows.now places)
        (λ row. IsTheRow board.now R.at rows.now places row.now) }
{
    match numbers.place(number) {
        Some(index) => Some(&rows[index]),
        None => None,
    }
}
