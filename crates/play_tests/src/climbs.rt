//! Plays on nested boards, over readers and writers that are slow, that fail, and that are refused
//! memory.

ghost use Rattle.board_text.specs.Ranges.{InRange};

use crate::outcomes::{Outcome, PLENTY, Writer, assert_play};
use board_text::Source;
use fakes::{Drip, Failing};
use player::{PlayEnd, PlayFault, play_nested};
use std::alloc::Global;
use std::fmt::Debug;
use std::process::Abort;

const LINES: &[u8] = b"0\n1\n2\n0\nquit\n";

/// The bytes that are written for these lines at the third level.
const REPLIES: &[u8] =
    b"levels 3\nat 00 00 00\npebble 0 takes 10\nat 10 00 00\npebble 1 takes 11\nat 10 11 00\n\
    pebble 2 takes 20\nat 10 11 20\npebble 0 takes 21\nat 21 11 20\nstopped after 4 requests\n";

/// The bytes that are written at the second level before a line is read.
const OPENED: &[u8] = b"levels 2\nat 0 0\n";

/// A play: the level, the lines, and the number of calls of each end that go well.
#[derive(Clone, Copy)]
struct Climb {
    levels: u8,
    lines: &'static [u8],
    reads: usize,
    writes: usize,
    failing: Failing,
}

const THREE_LEVELS: Climb = Climb {
    levels: 3,
    lines: LINES,
    reads: PLENTY,
    writes: PLENTY,
    failing: Failing::Refuses,
};

const TWO_LEVELS: Climb = Climb {
    levels: 2,
    ..THREE_LEVELS
};

/// What a play comes to.
fn outcome(alloc: Global, climb: Climb) -> Outcome
    requires { InRange 1 24 climb.levels }
{
    let mut lines = Drip::new(climb.lines, climb.reads);
    let mut writer = Writer::new(climb.writes, climb.failing);
    let answer = play_nested(alloc, climb.levels, &mut lines, &mut writer);
    Outcome {
        answer,
        read_failed: lines.failed(),
        writer,
    }
}

/// Asserts the answer of a play and the bytes that it writes.
fn assert_climb<P: Debug + Copy>(
    rt: &impl Abort,
    alloc: Global,
    place: P,
    climb: Climb,
    wanted: Result<PlayEnd, PlayFault>,
    written: &[u8],
)
    requires { InRange 1 24 climb.levels }
{
    let play = || -> Outcome
        requires { InRange 1 24 climb.levels }
    { outcome(alloc, climb) };
    assert_play(rt, place, play, wanted, written);
}

/// Asserts the answer of a play of these lines at the second level, and the bytes that it writes.
fn assert_lines(
    rt: &impl Abort,
    alloc: Global,
    place: &str,
    lines: &'static [u8],
    wanted: Result<PlayEnd, PlayFault>,
    written: &[u8],
) {
    let climb = Climb {
        lines,
        ..TWO_LEVELS
    };
    assert_climb(rt, alloc, place, climb, wanted, written);
}

#[test]
fn requests_at_the_third_level(rt: HostRuntime) {
    let stopped = Ok(PlayEnd::Stopped { requests: 4 });
    assert_climb(
        &rt,
        rt.alloc(),
        "the third level",
        THREE_LEVELS,
        stopped,
        REPLIES,
    );
}

#[test]
fn a_word_without_digits(rt: HostRuntime) {
    let climb = Climb {
        levels: 1,
        lines: b"0\n",
        ..THREE_LEVELS
    };
    let stopped = Ok(PlayEnd::Stopped { requests: 1 });
    let written = b"levels 1\nat .\npebble 0 takes .\nat .\nstopped after 1 requests\n";
    assert_climb(&rt, rt.alloc(), "the first level", climb, stopped, written);
}

/// Lines that make one request, for each way in which they end.
const ENDINGS: [(&str, &[u8]); 3] = [
    ("with a line feed", b"1\n"),
    ("without a line feed", b"1"),
    ("by quit", b"1\nquit\n0\n"),
];

#[test]
fn the_input_ends(rt: HostRuntime) {
    let stopped = Ok(PlayEnd::Stopped { requests: 1 });
    let written = b"levels 2\nat 0 0\npebble 1 takes 1\nat 0 1\nstopped after 1 requests\n";
    for (ending, lines) in &ENDINGS {
        assert_lines(&rt, rt.alloc(), ending, lines, stopped, written);
    }
}

#[test]
fn other_lines_are_no_requests(rt: HostRuntime) {
    let none = Ok(PlayEnd::Stopped { requests: 0 });
    let written =
        b"levels 2\nat 0 0\nnot a request\nnot a request\nnot a request\nnot a request\nnot a request\nstopped after 0 requests\n";
    let lines = b"2\n00\n\n.\nQuit\n";
    assert_lines(&rt, rt.alloc(), "five lines", lines, none, written);
}

#[test]
fn long_lines(rt: HostRuntime) {
    let none = Ok(PlayEnd::Stopped { requests: 0 });
    let longest = b"xxxxxxxxxxxxxxxxxxxxxxxxxxxxxxxxxxxxxxxxxxxxxxxxxxxxxxxxxxxxxxxx\n";
    let refused = b"levels 2\nat 0 0\nnot a request\nstopped after 0 requests\n";
    assert_lines(&rt, rt.alloc(), "64 bytes", longest, none, refused);
    let longer = b"xxxxxxxxxxxxxxxxxxxxxxxxxxxxxxxxxxxxxxxxxxxxxxxxxxxxxxxxxxxxxxxxx\n";
    assert_lines(
        &rt,
        rt.alloc(),
        "65 bytes",
        longer,
        Err(PlayFault::Limit),
        OPENED,
    );
}

/// The bytes that are written by the time that this number of bytes of the lines is read.
fn replies_after(read: usize) -> &'static [u8] {
    let size = match read {
        0 | 1 => 21,
        2 | 3 => 51,
        4 | 5 => 81,
        6 | 7 => 111,
        _ => 141,
    };
    REPLIES.get(..size).unwrap_or(b"")
}

#[test]
fn a_read_fails_at_each_call(rt: HostRuntime) {
    for reads in 0..LINES.len() {
        let climb = Climb {
            reads,
            ..THREE_LEVELS
        };
        let written = replies_after(reads);
        let fault = Err(PlayFault::Read);
        assert_climb(&rt, rt.alloc(), ("reads", reads), climb, fault, written);
    }
}

#[test]
fn a_write_fails_at_each_call(rt: HostRuntime) {
    for failing in [Failing::Refuses, Failing::TakesNothing] {
        for writes in 0..REPLIES.len() {
            let climb = Climb {
                writes,
                failing,
                ..THREE_LEVELS
            };
            let written = REPLIES.get(..writes).unwrap_or(b"");
            let fault = Err(PlayFault::Write);
            assert_climb(&rt, rt.alloc(), ("writes", writes), climb, fault, written);
        }
    }
}
