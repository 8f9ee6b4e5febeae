//! Nested boards, as they are made and as they are printed.

ghost use Rattle.std.specs.Prelude.{◌≡◌, IfSome, string_bytes};
ghost use Rattle.board_text.specs.Ranges.{InRange};
ghost use Rattle.nested_cycles.specs.NestedBoard.{IsNestedBoard};

use crate::assertions::{assert_same, assert_text, board_of};
use board_text::{Board, parse, print};
use fakes::boards::{LONE_LABEL, THREE_CYCLE, THREE_PEBBLES};
use fakes::{make_nested, print_board};
use nested_cycles::nested_beats;
use std::alloc::Global;
use std::process::Abort;

/// The nested board of a level.
fn nested(rt: &impl Abort, alloc: Global, levels: u8, pebbles: u8) -> Board
    requires levels { InRange 1 6 levels }
    requires pebbles { InRange 1 6 pebbles }
    ensures { IsNestedBoard levels pebbles result }
{
    make_nested(alloc, levels, pebbles).expect(rt, "a nested board")
}

/// The text of the nested board of a level.
fn nested_text(rt: &impl Abort, alloc: Global, levels: u8, pebbles: u8) -> String
    requires levels { InRange 1 6 levels }
    requires pebbles { InRange 1 6 pebbles }
{
    let board = nested(rt, alloc, levels, pebbles);
    print_board(alloc, &board).expect(rt, "the text of a board")
}

/// A board, printed and read again: the same board, by the promises of the two calls.
fn read_again(alloc: Global, board: &Board) -> Option<Board>
    ensures { IfSome result (λ again. again ≡ board.now) }
{
    let text = print(alloc, board).ok()?;
    let again = parse(alloc, text.as_bytes()).ok()?;
    (again.labels() == board.labels()).then_some(again)
}

/// A text, read and printed again: the same text, by the promises of the two calls.
fn print_again(alloc: Global, text: &str) -> Option<String>
    ensures { IfSome result (λ again. string_bytes again ≡ text.now) }
{
    let board = parse(alloc, text.as_bytes()).ok()?;
    print(alloc, &board).ok()
}

/// Asserts the text of the nested board of a level.
fn assert_nested(rt: &impl Abort, alloc: Global, levels: u8, pebbles: u8, wanted: &str)
    requires levels { InRange 1 6 levels }
    requires pebbles { InRange 1 6 pebbles }
{
    let text = nested_text(rt, alloc, levels, pebbles);
    assert_text(rt, (levels, pebbles), text.as_bytes(), wanted.as_bytes());
}

#[test]
fn the_smallest_levels(rt: HostRuntime) {
    assert_nested(&rt, rt.alloc(), 1, 1, LONE_LABEL);
    assert_nested(&rt, rt.alloc(), 2, 2, THREE_CYCLE);
    assert_nested(&rt, rt.alloc(), 2, 3, THREE_PEBBLES);
}

#[test]
fn labels_that_the_first_dominates(rt: HostRuntime) {
    let board = nested(&rt, rt.alloc(), 3, 3);
    assert_eq!(rt; board.labels(), 9);
    for label in 0..9 {
        let dominated = [2, 6, 7, 8].contains(&label);
        assert_same(&rt, ("board", label), board.beats(0, label), dominated);
        let beats = nested_beats(3, 0, u64::from(label));
        assert_same(&rt, ("words", label), beats, dominated);
    }
}

/// Asserts the number of lines of the text of a nested board, and the numbers of labels and pebbles
/// of the board that is read from it.
fn assert_lines(rt: &impl Abort, alloc: Global, levels: u8, labels: u16, lines: usize)
    requires { InRange 1 6 levels }
{
    let text = nested_text(rt, alloc, levels, levels);
    assert_same(rt, ("lines", levels), text.as_str().lines().count(), lines);
    let board = board_of(rt, alloc, text.as_str());
    assert_same(rt, ("labels", levels), board.labels(), labels);
    assert_same(rt, ("pebbles", levels), board.pebbles(), levels);
}

#[test]
fn numbers_of_lines(rt: HostRuntime) {
    assert_lines(&rt, rt.alloc(), 5, 81, 3_245);
    assert_lines(&rt, rt.alloc(), 6, 243, 29_408);
}

/// The number of pairs of the board.
fn count_pairs(board: &Board) -> u32 {
    let mut pairs = 0_u32;
    for x in 0..board.labels() {
        for y in 0..board.labels() {
            if board.beats(x, y) {
                pairs = pairs.saturating_add(1);
            }
        }
    }
    pairs
}

/// Asserts that the text is printed as it was read.
fn assert_printed_again(rt: &impl Abort, alloc: Global, text: &str) {
    let again = print_again(alloc, text)
        .or_else(|| print_again(alloc, text))
        .expect(rt, "the text of a board");
    assert_text(rt, "printed again", again.as_bytes(), text.as_bytes());
}

/// The board that is read from the text of this one.
fn board_again(rt: &impl Abort, alloc: Global, board: &Board) -> Board {
    read_again(alloc, board)
        .or_else(|| read_again(alloc, board))
        .expect(rt, "a board of a text")
}

#[test]
fn what_is_printed_is_read_again(rt: HostRuntime) {
    let made = nested(&rt, rt.alloc(), 4, 4);
    let board = board_again(&rt, rt.alloc(), &made);
    assert_same(&rt, "labels", board.labels(), 27);
    assert_eq!(rt; board.start(), [0, 0, 0, 0].as_slice());
    assert_same(&rt, "pairs", count_pairs(&board), 351);
    let text = nested_text(&rt, rt.alloc(), 4, 4);
    assert_printed_again(&rt, rt.alloc(), text.as_str());
}

#[test]
fn labels_of_the_highest_level(rt: HostRuntime) {
    // The words 1 0 .. 0, 2 0 .. 0 and 2 .. 2 of 23 digits.
    let second_copy = 31_381_059_609;
    let third_copy = 62_762_119_218;
    let last = 94_143_178_826;
    let second = [
        nested_beats(24, second_copy, 0),
        nested_beats(24, 0, second_copy),
    ];
    assert_same(&rt, "the second copy", second, [true, false]);
    let third = [
        nested_beats(24, third_copy, 0),
        nested_beats(24, 0, third_copy),
    ];
    assert_same(&rt, "the third copy", third, [false, true]);
    let later = nested_beats(24, third_copy, second_copy);
    assert_same(&rt, "the third over the second", later, true);
    let ends = [
        nested_beats(24, 0, last),
        nested_beats(24, last, second_copy),
    ];
    assert_same(&rt, "the last label", ends, [true, true]);
    let within = [
        nested_beats(24, last, last - 1),
        nested_beats(24, last, last),
    ];
    assert_same(&rt, "its own copy", within, [true, false]);
    assert_same(&rt, "the first level", nested_beats(1, 0, 0), false);
}
