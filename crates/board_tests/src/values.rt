//! The values of small boards, by the slow program.

ghost use Rattle.std.specs.Prelude.{◌<◌};

use crate::assertions::{assert_same, board_of};
use board_text::Board;
use fakes::boards::{
    CHAIN_OF_THREE, CYCLE_WITH_A_WAY_IN, LONE_LABEL, NO_PAIRS, ONE_PAIR, SHARED_LABEL, THREE_CYCLE,
    THREE_PEBBLES,
};
use fakes::{is_configuration, value_at};
use positions::{Value, labeller_lasts};
use std::alloc::Global;
use std::process::Abort;

/// The value of the start.
fn start_value(board: &Board) -> Option<Value> {
    let mut labels = [0; 6];
    let count = board.start().len();
    let start = labels.get_mut(..count)?;
    start.copy_from_slice(board.start());
    value_at(board, start)
}

/// Whether a labeller can answer this number of requests from a configuration, whichever they are.
fn lasts(board: &Board, configuration: &mut [u16], requests: u32) -> Option<bool> {
    if !is_configuration(board, configuration) {
        return None;
    }
    Some(labeller_lasts(board, configuration, requests))
}

#[test]
fn starts(rt: HostRuntime) {
    for (text, value) in [
        (THREE_CYCLE, Value::Forever),
        (ONE_PAIR, Value::Finite(1)),
        (CHAIN_OF_THREE, Value::Finite(2)),
        (LONE_LABEL, Value::Forever),
        (SHARED_LABEL, Value::Finite(0)),
        (CYCLE_WITH_A_WAY_IN, Value::Finite(1)),
        (THREE_PEBBLES, Value::Finite(1)),
        (NO_PAIRS, Value::Finite(0)),
    ] {
        let board = board_of(&rt, rt.alloc(), text);
        assert_same(&rt, text, start_value(&board), Some(value));
    }
}

/// Asserts the values of two pebbles on this number of labels, in order of rank.
fn assert_values(rt: &impl Abort, alloc: Global, text: &str, labels: u16, values: &[Value])
    requires { 0 < labels }
{
    let board = board_of(rt, alloc, text);
    for rank in 0..labels.saturating_mul(labels) {
        let found = value_at(&board, &mut [rank / labels, rank % labels]);
        assert_same(rt, rank, found, values.get(rank as usize).copied());
    }
}

#[test]
fn values_in_order_of_rank(rt: HostRuntime) {
    let chain = [2, 1, 0, 1, 1, 0, 0, 0, 0].map(Value::Finite);
    assert_values(&rt, rt.alloc(), CHAIN_OF_THREE, 3, &chain);
    let pair = [1, 0, 0, 0].map(Value::Finite);
    assert_values(&rt, rt.alloc(), ONE_PAIR, 2, &pair);
    assert_values(&rt, rt.alloc(), THREE_CYCLE, 3, &[Value::Forever; 9]);
}

#[test]
fn three_pebbles_on_the_cycle(rt: HostRuntime) {
    let board = board_of(&rt, rt.alloc(), THREE_PEBBLES);
    for rank in 0..27 {
        let (first, second, third) = (rank / 9, rank / 3 % 3, rank % 3);
        let value = if first == second && second == third {
            1
        } else {
            0
        };
        let found = value_at(&board, &mut [first, second, third]);
        assert_same(&rt, rank, found, Some(Value::Finite(value)));
    }
}

/// The value of two pebbles on the cycle with a way in. Nothing dominates 4, and 4 alone dominates
/// 3.
fn way_in_value(labels: [u16; 2]) -> Option<u32> {
    match labels {
        [4, _] | [_, 4] => Some(0),
        [3, _] | [_, 3] => Some(1),
        _ => None,
    }
}

#[test]
fn a_way_into_the_cycle(rt: HostRuntime) {
    let board = board_of(&rt, rt.alloc(), CYCLE_WITH_A_WAY_IN);
    for rank in 0..25 {
        let mut labels = [rank / 5, rank % 5];
        let value = way_in_value(labels);
        let requests = value.unwrap_or(10);
        let lasts_so_long = lasts(&board, &mut labels, requests);
        assert_same(&rt, ("so long", rank), lasts_so_long, Some(true));
        let lasts_longer = lasts(&board, &mut labels, requests.saturating_add(1));
        assert_same(&rt, ("longer", rank), lasts_longer, Some(value.is_none()));
    }
}
