//! The laws on small boards: values that a law or a count on paper gives, and the solver finds.
//!
//! A run of the tests may refuse one growth of memory, whichever. So a call that was refused one is
//! made once more.

use crate::solving::solve_board;
use board_text::parse;
use fakes::boards::{
    CHAIN_OF_THREE, CYCLE_WITH_A_WAY_IN, ONE_PAIR, PAIR_WITHOUT_LABELS, SHARED_LABEL, THREE_CYCLE,
    THREE_PEBBLES,
};
use positions::Value;
use std::alloc::Global;
use std::process::Abort;

/// The chain of three with its lowest label last, and both pebbles on that.
const PAIR_AND_A_LOWEST: &str = "board 1\nlabels 3\npebbles 2\nstart 2 2\n\
    beats 0 2\nbeats 1 0\nbeats 1 2\nend\n";

/// The chain of three under other names, 1 above 2 above 0, from the lowest.
const RENAMED_CHAIN: &str = "board 1\nlabels 3\npebbles 2\nstart 0 0\n\
    beats 1 0\nbeats 1 2\nbeats 2 0\nend\n";

/// The chain of four with three pebbles: the product of one pair and one pair.
const PAIR_OF_PAIRS: &str = "board 1\nlabels 4\npebbles 3\nstart 0 0 0\n\
    beats 1 0\nbeats 2 0\nbeats 2 1\nbeats 3 0\nbeats 3 1\nbeats 3 2\nend\n";

/// The cycle with a way in, where the two pebbles exchange their labels.
const EXCHANGED_ON_THE_WAY_IN: &str = "board 1\nlabels 5\npebbles 2\nstart 0 3\n\
    beats 0 2\nbeats 1 0\nbeats 2 1\nbeats 4 3\nend\n";

/// The product of the three-cycle and the three-cycle, with three pebbles.
const CYCLE_OF_CYCLES: &str = "board 1\nlabels 9\npebbles 3\nstart 0 0 0\n\
    beats 0 2\nbeats 0 6\nbeats 0 7\nbeats 0 8\nbeats 1 0\nbeats 1 6\nbeats 1 7\nbeats 1 8\n\
    beats 2 1\nbeats 2 6\nbeats 2 7\nbeats 2 8\nbeats 3 0\nbeats 3 1\nbeats 3 2\nbeats 3 5\n\
    beats 4 0\nbeats 4 1\nbeats 4 2\nbeats 4 3\nbeats 5 0\nbeats 5 1\nbeats 5 2\nbeats 5 4\n\
    beats 6 3\nbeats 6 4\nbeats 6 5\nbeats 6 8\nbeats 7 3\nbeats 7 4\nbeats 7 5\nbeats 7 6\n\
    beats 8 3\nbeats 8 4\nbeats 8 5\nbeats 8 7\nend\n";

/// The chain of three with three pebbles, of which two share the lowest label and one has none.
const SHARED_ON_THE_CHAIN: &str = "board 2\nlabels 3\npebbles 3\nstart 0 - 0\n\
    beats 1 0\nbeats 2 0\nbeats 2 1\nend\n";

/// The chain of three, and none of three pebbles that holds a label yet.
const CHAIN_WITHOUT_LABELS: &str = "board 2\nlabels 3\npebbles 3\nstart - - -\n\
    beats 1 0\nbeats 2 0\nbeats 2 1\nend\n";

/// The cycle with a way in, both pebbles on the label that the way in begins with.
const ALL_ON_THE_WAY_IN: &str = "board 1\nlabels 5\npebbles 2\nstart 3 3\n\
    beats 0 2\nbeats 1 0\nbeats 2 1\nbeats 4 3\nend\n";

/// The cycle with a way in, both pebbles on one label of the cycle.
const ALL_ON_THE_CYCLE: &str = "board 1\nlabels 5\npebbles 2\nstart 0 0\n\
    beats 0 2\nbeats 1 0\nbeats 2 1\nbeats 4 3\nend\n";

/// The chain of three with three pebbles, all on the lowest label.
const ALL_ON_THE_CHAIN: &str = "board 1\nlabels 3\npebbles 3\nstart 0 0 0\n\
    beats 1 0\nbeats 2 0\nbeats 2 1\nend\n";

/// The three-cycle with three pebbles, of which two share a label and one has none.
const SHARED_ON_THE_CYCLE: &str = "board 2\nlabels 3\npebbles 3\nstart - 0 0\n\
    beats 0 2\nbeats 1 0\nbeats 2 1\nend\n";

/// The three-cycle and a label above all of it.
const CYCLE_AND_A_TOP: &str = "board 1\nlabels 4\npebbles 2\nstart 0 0\n\
    beats 0 2\nbeats 1 0\nbeats 2 1\nbeats 3 0\nbeats 3 1\nbeats 3 2\nend\n";

/// The same domain, both pebbles on the label above the cycle, which no start that lasts uses.
const ALL_ON_THE_TOP: &str = "board 1\nlabels 4\npebbles 2\nstart 3 3\n\
    beats 0 2\nbeats 1 0\nbeats 2 1\nbeats 3 0\nbeats 3 1\nbeats 3 2\nend\n";

/// The residues modulo seven, and three pebbles on three of them.
const THREE_ON_RESIDUES: &str = "board 1\nlabels 7\npebbles 3\nstart 0 1 3\n\
    beats 0 3\nbeats 0 5\nbeats 0 6\nbeats 1 0\nbeats 1 4\nbeats 1 6\nbeats 2 0\nbeats 2 1\n\
    beats 2 5\nbeats 3 1\nbeats 3 2\nbeats 3 6\nbeats 4 0\nbeats 4 2\nbeats 4 3\nbeats 5 1\n\
    beats 5 3\nbeats 5 4\nbeats 6 2\nbeats 6 4\nbeats 6 5\nend\n";

/// The residues modulo seven with four pebbles.
const FOUR_ON_RESIDUES: &str = "board 1\nlabels 7\npebbles 4\nstart 0 0 0 0\n\
    beats 0 3\nbeats 0 5\nbeats 0 6\nbeats 1 0\nbeats 1 4\nbeats 1 6\nbeats 2 0\nbeats 2 1\n\
    beats 2 5\nbeats 3 1\nbeats 3 2\nbeats 3 6\nbeats 4 0\nbeats 4 2\nbeats 4 3\nbeats 5 1\n\
    beats 5 3\nbeats 5 4\nbeats 6 2\nbeats 6 4\nbeats 6 5\nend\n";

/// The product of the three-cycle and the three-cycle, with four pebbles.
const FOUR_ON_CYCLES: &str = "board 1\nlabels 9\npebbles 4\nstart 0 0 0 0\n\
    beats 0 2\nbeats 0 6\nbeats 0 7\nbeats 0 8\nbeats 1 0\nbeats 1 6\nbeats 1 7\nbeats 1 8\n\
    beats 2 1\nbeats 2 6\nbeats 2 7\nbeats 2 8\nbeats 3 0\nbeats 3 1\nbeats 3 2\nbeats 3 5\n\
    beats 4 0\nbeats 4 1\nbeats 4 2\nbeats 4 3\nbeats 5 0\nbeats 5 1\nbeats 5 2\nbeats 5 4\n\
    beats 6 3\nbeats 6 4\nbeats 6 5\nbeats 6 8\nbeats 7 3\nbeats 7 4\nbeats 7 5\nbeats 7 6\n\
    beats 8 3\nbeats 8 4\nbeats 8 5\nbeats 8 7\nend\n";

/// The product of the three-cycle and one pair, with two pebbles.
const TWO_ON_CYCLE_AND_PAIR: &str = "board 1\nlabels 6\npebbles 2\nstart 0 0\n\
    beats 0 4\nbeats 0 5\nbeats 1 0\nbeats 1 4\nbeats 1 5\nbeats 2 0\nbeats 2 1\nbeats 3 0\n\
    beats 3 1\nbeats 3 2\nbeats 4 2\nbeats 4 3\nbeats 5 2\nbeats 5 3\nbeats 5 4\nend\n";

/// The product of the three-cycle and one pair, with three pebbles.
const THREE_ON_CYCLE_AND_PAIR: &str = "board 1\nlabels 6\npebbles 3\nstart 0 0 0\n\
    beats 0 4\nbeats 0 5\nbeats 1 0\nbeats 1 4\nbeats 1 5\nbeats 2 0\nbeats 2 1\nbeats 3 0\n\
    beats 3 1\nbeats 3 2\nbeats 4 2\nbeats 4 3\nbeats 5 2\nbeats 5 3\nbeats 5 4\nend\n";

/// The residues modulo seven twice, apart from each other, with three pebbles on one label.
const SEVEN_TWICE: &str = "board 1\nlabels 14\npebbles 3\nstart 0 0 0\n\
    beats 0 3\nbeats 0 5\nbeats 0 6\nbeats 1 0\nbeats 1 4\nbeats 1 6\nbeats 2 0\nbeats 2 1\n\
    beats 2 5\nbeats 3 1\nbeats 3 2\nbeats 3 6\nbeats 4 0\nbeats 4 2\nbeats 4 3\nbeats 5 1\n\
    beats 5 3\nbeats 5 4\nbeats 6 2\nbeats 6 4\nbeats 6 5\nbeats 7 10\nbeats 7 12\nbeats 7 13\n\
    beats 8 7\nbeats 8 11\nbeats 8 13\nbeats 9 7\nbeats 9 8\nbeats 9 12\nbeats 10 8\nbeats 10 9\n\
    beats 10 13\nbeats 11 7\nbeats 11 9\nbeats 11 10\nbeats 12 8\nbeats 12 10\nbeats 12 11\n\
    beats 13 9\nbeats 13 11\nbeats 13 12\nend\n";

/// The same domain, where two pebbles hold labels that no label dominates both.
const APART_ON_SEVEN_TWICE: &str = "board 1\nlabels 14\npebbles 3\nstart 0 7 0\n\
    beats 0 3\nbeats 0 5\nbeats 0 6\nbeats 1 0\nbeats 1 4\nbeats 1 6\nbeats 2 0\nbeats 2 1\n\
    beats 2 5\nbeats 3 1\nbeats 3 2\nbeats 3 6\nbeats 4 0\nbeats 4 2\nbeats 4 3\nbeats 5 1\n\
    beats 5 3\nbeats 5 4\nbeats 6 2\nbeats 6 4\nbeats 6 5\nbeats 7 10\nbeats 7 12\nbeats 7 13\n\
    beats 8 7\nbeats 8 11\nbeats 8 13\nbeats 9 7\nbeats 9 8\nbeats 9 12\nbeats 10 8\nbeats 10 9\n\
    beats 10 13\nbeats 11 7\nbeats 11 9\nbeats 11 10\nbeats 12 8\nbeats 12 10\nbeats 12 11\n\
    beats 13 9\nbeats 13 11\nbeats 13 12\nend\n";

/// The double cover of the three-cycle: two labels for each of its labels and for one point more.
const COVER_OF_CYCLE: &str = "board 1\nlabels 8\npebbles 3\nstart 0 0 0\n\
    beats 0 3\nbeats 0 4\nbeats 0 7\nbeats 1 2\nbeats 1 5\nbeats 1 6\nbeats 2 0\nbeats 2 5\n\
    beats 2 7\nbeats 3 1\nbeats 3 4\nbeats 3 6\nbeats 4 1\nbeats 4 2\nbeats 4 7\nbeats 5 0\n\
    beats 5 3\nbeats 5 6\nbeats 6 0\nbeats 6 2\nbeats 6 4\nbeats 7 1\nbeats 7 3\nbeats 7 5\nend\n";

/// Asserts that the start of the board with this text has the value.
fn assert_value(rt: &impl Abort, alloc: Global, text: &str, value: Value) {
    let board = parse(alloc, text.as_bytes()).or_else(|_| parse(alloc, text.as_bytes()));
    let board = board.expect(rt, "the text of a board");
    let solved = solve_board(alloc, &board).or_else(|_| solve_board(alloc, &board));
    let solved = solved.expect(rt, "a board that isn't too large");
    assert_eq!(rt; solved.value, value, "{text}");
}

#[test]
fn chains_and_cycles(rt: HostRuntime) {
    for (text, value) in [
        (SHARED_LABEL, Value::Finite(0)),
        (ONE_PAIR, Value::Finite(1)),
        (CHAIN_OF_THREE, Value::Finite(2)),
        (THREE_CYCLE, Value::Forever),
    ] {
        assert_value(&rt, rt.alloc(), text, value);
    }
}

#[test]
fn other_names_places_and_processes(rt: HostRuntime) {
    for (text, value) in [
        (RENAMED_CHAIN, Value::Finite(2)),
        (PAIR_WITHOUT_LABELS, Value::Finite(2)),
        (PAIR_AND_A_LOWEST, Value::Finite(2)),
        (CYCLE_WITH_A_WAY_IN, Value::Finite(1)),
        (EXCHANGED_ON_THE_WAY_IN, Value::Finite(1)),
        (THREE_PEBBLES, Value::Finite(1)),
    ] {
        assert_value(&rt, rt.alloc(), text, value);
    }
}

#[test]
fn processes_on_one_label(rt: HostRuntime) {
    for (text, value) in [
        (ALL_ON_THE_CHAIN, Value::Finite(2)),
        (SHARED_ON_THE_CHAIN, Value::Finite(2)),
        (THREE_PEBBLES, Value::Finite(1)),
        (SHARED_ON_THE_CYCLE, Value::Finite(1)),
    ] {
        assert_value(&rt, rt.alloc(), text, value);
    }
}

#[test]
fn best_starts_and_unused_labels(rt: HostRuntime) {
    for (text, value) in [
        (CHAIN_WITHOUT_LABELS, Value::Finite(3)),
        (ALL_ON_THE_WAY_IN, Value::Finite(1)),
        (ALL_ON_THE_CYCLE, Value::Forever),
        (CYCLE_AND_A_TOP, Value::Forever),
        (ALL_ON_THE_TOP, Value::Finite(0)),
    ] {
        assert_value(&rt, rt.alloc(), text, value);
    }
}

#[test]
fn labels_that_processes_need(rt: HostRuntime) {
    assert_value(&rt, rt.alloc(), THREE_ON_RESIDUES, Value::Forever);
    assert_value(&rt, rt.alloc(), FOUR_ON_RESIDUES, Value::Finite(2));
}

#[test]
fn products(rt: HostRuntime) {
    for (text, value) in [
        (PAIR_OF_PAIRS, Value::Finite(3)),
        (CYCLE_OF_CYCLES, Value::Forever),
        (FOUR_ON_CYCLES, Value::Finite(3)),
        (TWO_ON_CYCLE_AND_PAIR, Value::Forever),
        (THREE_ON_CYCLE_AND_PAIR, Value::Finite(3)),
    ] {
        assert_value(&rt, rt.alloc(), text, value);
    }
}

#[test]
fn dominated_chains(rt: HostRuntime) {
    assert_value(&rt, rt.alloc(), SEVEN_TWICE, Value::Forever);
    assert_value(&rt, rt.alloc(), APART_ON_SEVEN_TWICE, Value::Finite(0));
    assert_value(&rt, rt.alloc(), COVER_OF_CYCLE, Value::Forever);
}
