//! Worked boards: the values of their starts, and how many configurations last for ever.

ghost use Rattle.std.specs.Prelude.{◌≡◌, ◌↔◌, ◌≤◌, IfSome, IsTrue};
ghost use Rattle.board_text.specs.PlainBoard.{IsConfiguration};

use crate::counting::has_few_gaps;
use crate::makers::{OnThisThread, by_workers};
use crate::value_table::ValueTable;
use crate::values::GapValues;
use board_text::{Board, MAX_PEBBLES, parse};
use console::NoWatch;
use positions::{Value, is_small, value_of};
use std::alloc::Global;
use std::process::Abort;
use std::thread::Threads;

/// The chain of three labels with two pebbles on the lowest.
const CHAIN_OF_THREE: &str = "board 1\nlabels 3\npebbles 2\nstart 0 0\n\
    beats 1 0\nbeats 2 0\nbeats 2 1\nend\n";

/// The three-cycle with two pebbles.
const THREE_CYCLE: &str = "board 1\nlabels 3\npebbles 2\nstart 0 0\n\
    beats 0 2\nbeats 1 0\nbeats 2 1\nend\n";

/// The chain of three, and none of three pebbles that holds a label yet.
const CHAIN_WITHOUT_LABELS: &str = "board 2\nlabels 3\npebbles 3\nstart - - -\n\
    beats 1 0\nbeats 2 0\nbeats 2 1\nend\n";

/// One pebble on one label.
const LONE_LABEL: &str = "board 1\nlabels 1\npebbles 1\nstart 0\nend\n";

/// The chain of three, and none of five pebbles that holds a label yet. Each of the first three
/// requests of different pebbles has to be answered by a greater label, and the fourth has no
/// answer.
const FIVE_ON_THE_CHAIN: &str = "board 2\nlabels 3\npebbles 5\nstart - - - - -\n\
    beats 1 0\nbeats 2 0\nbeats 2 1\nend\n";

/// The three-cycle, and none of six pebbles that holds a label yet. The second label dominates the
/// first, and no label dominates both.
const SIX_ON_THE_CYCLE: &str = "board 2\nlabels 3\npebbles 6\nstart - - - - - -\n\
    beats 0 2\nbeats 1 0\nbeats 2 1\nend\n";

/// Two pebbles, of which the first holds the greatest label of two, and the second none.
const PAIR_WITH_A_BLANK: &str = "board 2\nlabels 2\npebbles 2\nstart 1 -\nbeats 1 0\nend\n";

/// Asserts the value of a board's start, and how many configurations last for ever.
fn assert_values(
    rt: &(impl Abort + Threads + Sync),
    alloc: Global,
    text: &str,
    wanted: Value,
    forever: u64,
) {
    let board = parse(alloc, text.as_bytes()).ok().expect(rt, "a board");
    assert!(rt; has_few_gaps(&board));
    match GapValues::of(alloc, &board, &OnThisThread, &NoWatch, &mut ()) {
        Ok(values) => {
            assert_eq!(rt; values.value(board.start()), wanted);
            let sizes = values.sizes_by(rt, alloc, 1).ok().expect(rt, "memory");
            assert_eq!(rt; sizes.forever, forever);
        }
        Err(_) => panic!(rt; "memory"),
    }
}

/// Whether `held` is a configuration of `board`.
fn is_configuration(board: &Board, held: &[u16]) -> bool
    ensures { IsTrue result ↔ IsConfiguration board.now held.now }
{
    let places = board.places();
    held.len() == usize::from(board.pebbles()) && held.iter().all(|place| *place < places)
}

/// The values of a board that has few gaps.
fn values_of(
    rt: &(impl Threads + Sync),
    alloc: Global,
    board: &Board,
    workers: u8,
) -> Option<GapValues>
    requires { 1 ≤ workers }
    ensures { IfSome result (λ values. values ≡ board.now) }
{
    if !has_few_gaps(board) {
        return None;
    }
    GapValues::of(alloc, board, &by_workers(rt, workers), &NoWatch, &mut ()).ok()
}

/// The value of a configuration by its gaps, and the one that the slow program finds.
fn both_values(board: &Board, values: &GapValues, held: &mut [u16]) -> Option<(Value, Value)>
    requires { values.now ≡ board.now }
{
    if !is_small(board) || !is_configuration(board, held) {
        return None;
    }
    let found = values.value(held);
    Some((found, value_of(board, held)))
}

/// Asserts that all configurations of a board have the values that the slow program finds.
fn assert_all_values(rt: &(impl Abort + Threads + Sync), alloc: Global, text: &str, workers: u8)
    requires { 1 ≤ workers }
{
    let board = parse(alloc, text.as_bytes()).ok().expect(rt, "a board");
    let pebbles = board.pebbles() as usize;
    let last = board.places() - 1;
    let values = match values_of(rt, alloc, &board, workers) {
        Some(values) => values,
        None => panic!(rt; "memory"),
    };
    let mut held = [0u16; MAX_PEBBLES];
    for _ in 0..5000u32 {
        match both_values(&board, &values, &mut held[..pebbles]) {
            Some((found, wanted)) => assert_eq!(rt; found, wanted),
            None => panic!(rt; "no configuration of a small board"),
        }
        // The next configuration, and after the last one the first.
        for pebble in 0..pebbles {
            if held[pebble] < last {
                held[pebble] += 1;
                break;
            }
            held[pebble] = 0;
        }
    }
}

#[test]
fn all_values_of_boards(rt: HostRuntime) {
    let alloc = rt.alloc();
    assert_all_values(&rt, alloc, CHAIN_OF_THREE, 1);
    assert_all_values(&rt, alloc, CHAIN_WITHOUT_LABELS, 2);
    assert_all_values(&rt, alloc, FIVE_ON_THE_CHAIN, 3);
    assert_all_values(&rt, alloc, SIX_ON_THE_CYCLE, 4);
    assert_all_values(&rt, alloc, PAIR_WITH_A_BLANK, 5);
}

#[test]
fn worked_boards(rt: HostRuntime) {
    let alloc = rt.alloc();
    assert_values(&rt, alloc, CHAIN_OF_THREE, Value::Finite(2), 0);
    assert_values(&rt, alloc, THREE_CYCLE, Value::Forever, 9);
    assert_values(&rt, alloc, CHAIN_WITHOUT_LABELS, Value::Finite(3), 0);
    assert_values(&rt, alloc, LONE_LABEL, Value::Forever, 1);
    assert_values(&rt, alloc, FIVE_ON_THE_CHAIN, Value::Finite(3), 0);
    assert_values(&rt, alloc, SIX_ON_THE_CYCLE, Value::Finite(2), 0);
    assert_values(&rt, alloc, PAIR_WITH_A_BLANK, Value::Finite(0), 0);
}
