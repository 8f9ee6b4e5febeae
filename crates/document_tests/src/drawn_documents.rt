//! Drawn boards, of which values by ranks and values by gaps give one document and one report.
//!
//! A run of the tests may refuse one growth of memory, whichever. So a call that was refused one is
//! made once more.

ghost use Rattle.std.specs.Prelude.{◌≡◌, IfOk};
ghost use Rattle.strategies.specs.Document.{IsMadeDocument};

use crate::assertions::{assert_same, assert_text};
use crate::documents::print_document;
use crate::drawn_boards::drawn_board;
use crate::strategy_documents::document_of;
use board_text::{Board, Memory};
use gap_values::{GapValues, Sizes, ValueTable};
use positions::{Space, Value};
use proof_text::Proof;
use solved_boards::{gap_values_of, values_of};
use solver::Values;
use std::alloc::Global;
use std::process::Abort;
use strategies::{DocumentText, GapMoves, document_text};

/// The number of boards that are drawn.
const BOARDS: u64 = 1_000;

/// The text of a document of a board that has a space.
fn text_of(rt: &impl Abort, alloc: Global, space: &Space, made: Result<Proof, Memory>) -> String
    requires { IfOk made (IsMadeDocument space.now) }
{
    let proof = made.expect(rt, "a document");
    print_document(alloc, space, &proof).expect(rt, "its text")
}

/// The text of the document of a board by its gaps, asked for once more if memory was refused.
fn text_by_gaps(
    alloc: Global,
    board: &Board,
    space: &Space,
    values: &GapValues,
) -> Result<DocumentText, Memory>
    requires space { space.now ≡ board.now }
    requires values { values.now ≡ board.now }
{
    let moves = GapMoves::new(board, values);
    match document_text(alloc, &moves, space) {
        Err(Memory) => document_text(alloc, &moves, space),
        answer => answer,
    }
}

/// Asserts that these parts are a text.
fn assert_parts(rt: &impl Abort, seed: u64, parts: &[Vec<u8>], wanted: &[u8]) {
    let mut rest = wanted;
    for part in parts {
        let front = rest.get(..part.len()).unwrap_or(rest);
        assert_text(rt, ("document", seed), part.as_slice(), front);
        rest = rest.get(part.len()..).unwrap_or(&[]);
    }
    assert_text(rt, ("document", seed), &[], rest);
}

/// How many configurations have each value by the gaps, asked for once more if memory was refused.
fn sizes_of(alloc: Global, values: &GapValues) -> Result<Sizes, Memory> {
    match values.sizes(alloc) {
        Err(Memory) => values.sizes(alloc),
        answer => answer,
    }
}

/// Asserts that all that a report says of values is the same by both: the value of the start, and
/// how many configurations have each value up to the greatest. Gives the value of the start.
fn assert_same_report(
    rt: &impl Abort,
    alloc: Global,
    seed: u64,
    board: &Board,
    by_ranks: &Values,
    by_gaps: &GapValues,
) -> Value
    requires ranks { by_ranks.now ≡ board.now }
    requires gaps { by_gaps.now ≡ board.now }
{
    let start = by_ranks.of(by_ranks.space().rank(board.start()));
    assert_same(rt, ("start", seed), by_gaps.value(board.start()), start);
    let sizes = sizes_of(alloc, by_gaps).expect(rt, "sizes");
    let greatest = by_ranks.greatest_finite();
    let values = greatest.map_or(0, |number: u32| u64::from(number) + 1);
    assert_same(rt, ("values", seed), sizes.finite.len() as u64, values);
    for number in 0..=greatest.unwrap_or(0) {
        let size = sizes.finite.get(number as usize).copied().unwrap_or(0);
        let count = by_ranks.count(Value::Finite(number));
        assert_same(rt, (number, seed), size, u64::from(count));
    }
    let forever = by_ranks.count(Value::Forever);
    assert_same(rt, ("forever", seed), sizes.forever, u64::from(forever));
    start
}

/// Asserts that the values of the board of this seed give one document and one report by ranks and
/// by gaps. Gives whether its text is of the second version, and whether its start lasts for ever.
fn assert_same_answers(rt: &impl Abort, alloc: Global, seed: u64) -> (bool, bool) {
    let board = drawn_board(alloc, seed).expect(rt, "a board");
    let by_ranks = values_of(alloc, &board).expect(rt, "values by ranks");
    let by_gaps = gap_values_of(alloc, &board).expect(rt, "values by gaps");
    let space = by_ranks.space();
    let wanted = text_of(rt, alloc, space, document_of(alloc, &board, &by_ranks));
    let found = text_by_gaps(alloc, &board, space, &by_gaps).expect(rt, "a text");
    assert_parts(rt, seed, &found.parts, wanted.as_bytes());
    let start = assert_same_report(rt, alloc, seed, &board, &by_ranks, &by_gaps);
    (board.version() == 2, start == Value::Forever)
}

#[test]
fn a_thousand_boards_by_ranks_and_by_gaps(rt: HostRuntime) {
    let mut counts = [[0u32; 2]; 2];
    for seed in 0..BOARDS {
        let (is_second, lasts) = assert_same_answers(&rt, rt.alloc(), seed);
        let count = &mut counts[usize::from(is_second)][usize::from(lasts)];
        *count = count.saturating_add(1);
    }
    // Of each version there were boards with a finite start, and boards with an endless one.
    assert!(&rt;
        counts.iter().flatten().all(|count| *count >= 100),
        "drawn {counts:?}"
    );
}
