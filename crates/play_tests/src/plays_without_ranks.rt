//! Plays on a board that has too many configurations for ranks: an order of 103 labels and three
//! pebbles, with 1,092,727 configurations.

ghost use Rattle.std.specs.Prelude.{◌≡◌};

use crate::outcomes::{Outcome, PLENTY, Writer, assert_play};
use board_text::{Board, Source, Through};
use fakes::{Drip, Failing, Shape, shaped};
use gap_values::GapValues;
use player::{AsAdversary, AsLabeller, PlayEnd, play};
use positions::Side;
use solved_boards::gap_values_of;
use std::alloc::Global;
use std::process::Abort;
use strategies::GapMoves;

/// The lines of a person, the end of the play, and the text that is written.
#[derive(Clone, Copy)]
struct Wanted {
    lines: &'static [u8],
    end: PlayEnd,
    written: &'static [u8],
}

/// What a play on a board comes to.
fn outcome(alloc: Global, board: &Board, values: &GapValues, person: Side, lines: &[u8]) -> Outcome
    requires { values.now ≡ board.now }
{
    let mut reader = Drip::new(lines, PLENTY);
    let mut writer = Writer::new(PLENTY, Failing::Refuses);
    let mut nobody = Through::new(Vec::new(alloc));
    let (lines, out, err) = (&mut reader, &mut writer, &mut nobody);
    let moves = GapMoves::new(board, values);
    let answer = match person {
        Side::Adversary => {
            play(
                alloc,
                &AsAdversary { moves: &moves },
                lines,
                out,
                false,
                err,
            )
        }
        Side::Labeller => play(alloc, &AsLabeller { moves: &moves }, lines, out, false, err),
    };
    Outcome {
        answer,
        read_failed: reader.failed(),
        writer,
    }
}

/// Asserts a play on the order.
fn assert_order_play(rt: &impl Abort, alloc: Global, person: Side, wanted: Wanted) {
    let board = shaped(alloc, Shape::Order, 103, 3).expect(rt, "a board");
    let values = gap_values_of(alloc, &board).expect(rt, "values");
    let play = || -> Outcome
        requires { values ≡ board }
    { outcome(alloc, &board, &values, person, wanted.lines) };
    assert_play(rt, person, play, Ok(wanted.end), wanted.written);
}

#[test]
fn a_person_asks_without_ranks(rt: HostRuntime) {
    let wanted = Wanted {
        lines: b"0\n1\n3\n1\nquit\n",
        end: PlayEnd::Stopped { requests: 3 },
        written: b"value 102\nat 0 0 0\npebble 0 takes 1\nat 1 0 0\n\
            pebble 1 takes 2\nat 1 2 0\nnot a request\npebble 1 takes 2\nat 1 2 0\n\
            stopped after 3 requests\n",
    };
    assert_order_play(&rt, rt.alloc(), Side::Adversary, wanted);
}

#[test]
fn a_person_answers_without_ranks(rt: HostRuntime) {
    let wanted = Wanted {
        lines: b"1\n1\n102\n",
        end: PlayEnd::Stuck { requests: 2 },
        written: b"value 102\nat 0 0 0\nask 0\nat 1 0 0\nask 1\nnot an answer\n\
            at 1 102 0\nask 0\nno label for pebble 0 after 2 requests\n",
    };
    assert_order_play(&rt, rt.alloc(), Side::Labeller, wanted);
}
