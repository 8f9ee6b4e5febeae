//! Plays on worked boards, by the player's two calls.

ghost use Rattle.std.specs.Prelude.{◌≡◌};

use crate::assertions::board_of;
use crate::outcomes::{Outcome, PLENTY, Writer, assert_play};
use board_text::{Board, Source};
use fakes::boards::{CHAIN_OF_THREE, THREE_CYCLE};
use fakes::plays::{ANSWERS, ASKED, NO_STRATEGY, REPLIES, REQUESTS};
use fakes::{Drip, Failing};
use player::{PlayEnd, play_adversary_side, play_labeller_side};
use solved_boards::values_of;
use solver::Values;
use std::alloc::Global;
use std::process::Abort;

/// Who the person is.
#[derive(Clone, Copy, Debug, PartialEq, Eq)]
enum Person {
    Adversary,
    Labeller,
}

/// What a play on a board comes to.
fn outcome(alloc: Global, board: &Board, values: &Values, person: Person, lines: &[u8]) -> Outcome
    requires { values.now ≡ board.now }
{
    let mut reader = Drip::new(lines, PLENTY);
    let mut writer = Writer::new(PLENTY, Failing::Refuses);
    let answer = match person {
        Person::Adversary => play_adversary_side(alloc, board, values, &mut reader, &mut writer),
        Person::Labeller => play_labeller_side(alloc, board, values, &mut reader, &mut writer),
    };
    Outcome {
        answer,
        read_failed: reader.failed(),
        writer,
    }
}

/// Asserts the end of a play on a board, and the bytes that it writes.
fn assert_board_play(
    rt: &impl Abort,
    alloc: Global,
    text: &str,
    person: Person,
    lines: &[u8],
    wanted: PlayEnd,
    written: &[u8],
) {
    let board = board_of(rt, alloc, text);
    let values = values_of(alloc, &board).expect(rt, "values");
    let play = || -> Outcome
        requires { values ≡ board }
    { outcome(alloc, &board, &values, person, lines) };
    assert_play(rt, (person, text), play, Ok(wanted), written);
}

#[test]
fn a_person_asks(rt: HostRuntime) {
    let stuck = PlayEnd::Stuck { requests: 2 };
    assert_board_play(
        &rt,
        rt.alloc(),
        CHAIN_OF_THREE,
        Person::Adversary,
        REQUESTS,
        stuck,
        REPLIES,
    );
}

#[test]
fn a_person_asks_on_the_cycle(rt: HostRuntime) {
    let written =
        b"forever\nat 0 0\npebble 0 takes 1\nat 1 0\npebble 0 takes 1\nat 1 0\npebble 1 takes 2\nat 1 2\nstopped after 3 requests\n";
    let stopped = PlayEnd::Stopped { requests: 3 };
    assert_board_play(
        &rt,
        rt.alloc(),
        THREE_CYCLE,
        Person::Adversary,
        b"0\n0\n1\nquit\n0\n",
        stopped,
        written,
    );
}

#[test]
fn a_person_answers(rt: HostRuntime) {
    let stuck = PlayEnd::Stuck { requests: 2 };
    assert_board_play(
        &rt,
        rt.alloc(),
        CHAIN_OF_THREE,
        Person::Labeller,
        ANSWERS,
        stuck,
        ASKED,
    );
}

#[test]
fn no_strategy_against_a_person(rt: HostRuntime) {
    assert_board_play(
        &rt,
        rt.alloc(),
        THREE_CYCLE,
        Person::Labeller,
        b"1\n",
        PlayEnd::NoStrategy,
        NO_STRATEGY,
    );
}
