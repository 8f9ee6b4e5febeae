//! Plays over readers and writers that are slow, that fail, that look at the written bytes, and
//! that are refused memory.

ghost use Rattle.std.specs.Prelude.{false};

use crate::assertions::{assert_same, assert_text};
use crate::outcomes::{NOTHING, Outcome, PLENTY, Writer, assert_run};
use board_text::{BoardFault, BoardKind, Failed, Sink, Source};
use fakes::boards::{CHAIN_OF_THREE, THREE_CYCLE, TOO_MANY_CONFIGURATIONS};
use fakes::plays::{ANSWERS, ASKED, NO_STRATEGY, REPLIES, REQUESTS};
use fakes::{Drip, Failing};
use player::PlayEnd;
use positions::Side;
use runs::{RunFault, run_play};
use std::alloc::Global;
use std::cell::Cell;
use std::fmt::Debug;
use std::process::Abort;

const ROOM: usize = 200;

/// The replies to the first three lines, and that the input ended.
const STOPPED_REPLIES: &[u8] =
    b"value 2\nat 0 0\npebble 1 takes 1\nat 0 1\nnot a request\npebble 0 takes 2\nat 2 1\nstopped after 2 requests\n";

/// The bytes that are written before a line is read.
const OPENED: &[u8] = b"value 2\nat 0 0\n";

/// A play: the person's side, the texts, and the number of calls of each end that go well.
#[derive(Clone, Copy)]
struct Play {
    side: Side,
    board: &'static str,
    lines: &'static [u8],
    board_reads: usize,
    line_reads: usize,
    writes: usize,
    failing: Failing,
}

const ASKING: Play = Play {
    side: Side::Adversary,
    board: CHAIN_OF_THREE,
    lines: REQUESTS,
    board_reads: PLENTY,
    line_reads: PLENTY,
    writes: PLENTY,
    failing: Failing::Refuses,
};

const ANSWERING: Play = Play {
    side: Side::Labeller,
    lines: ANSWERS,
    ..ASKING
};

const STUCK: Result<PlayEnd, RunFault> = Ok(PlayEnd::Stuck { requests: 2 });

/// What a play comes to.
fn outcome(alloc: Global, play: Play) -> Outcome<PlayEnd> {
    let mut board = Drip::new(play.board.as_bytes(), play.board_reads);
    let mut lines = Drip::new(play.lines, play.line_reads);
    let mut writer = Writer::new(play.writes, play.failing);
    let answer = run_play(alloc, play.side, &mut board, &mut lines, &mut writer);
    Outcome {
        answer,
        read_failed: board.failed() || lines.failed(),
        writer,
    }
}

/// Asserts the answer of a play and the bytes that it writes.
fn assert_play<P: Debug + Copy>(
    rt: &impl Abort,
    alloc: Global,
    place: P,
    play: Play,
    wanted: Result<PlayEnd, RunFault>,
    written: &[u8],
) {
    assert_run(rt, place, || outcome(alloc, play), wanted, written, written);
}

/// Asserts the answer of a play of a person who asks by these lines, and the bytes that it writes.
fn assert_requests(
    rt: &impl Abort,
    alloc: Global,
    place: &str,
    lines: &'static [u8],
    wanted: Result<PlayEnd, RunFault>,
    written: &[u8],
) {
    assert_play(rt, alloc, place, Play { lines, ..ASKING }, wanted, written);
}

#[test]
fn the_person_asks(rt: HostRuntime) {
    assert_play(&rt, rt.alloc(), "requests", ASKING, STUCK, REPLIES);
}

/// The first three lines, for each way in which the input ends after them.
const ENDINGS: [(&str, &[u8]); 3] = [
    ("with a line feed", b"1\nx\n0\n"),
    ("without a line feed", b"1\nx\n0"),
    ("by quit", b"1\nx\n0\nquit\n1\n"),
];

#[test]
fn the_input_ends(rt: HostRuntime) {
    let stopped = Ok(PlayEnd::Stopped { requests: 2 });
    for (ending, lines) in &ENDINGS {
        assert_requests(&rt, rt.alloc(), ending, lines, stopped, STOPPED_REPLIES);
    }
}

#[test]
fn the_person_answers(rt: HostRuntime) {
    assert_play(&rt, rt.alloc(), "answers", ANSWERING, STUCK, ASKED);
}

#[test]
fn a_person_who_answers_stops(rt: HostRuntime) {
    let stopped = Ok(PlayEnd::Stopped { requests: 1 });
    let play = Play {
        lines: b"1\nquit\n",
        ..ANSWERING
    };
    let written = b"value 2\nat 0 0\nask 0\nat 1 0\nask 1\nstopped after 1 requests\n";
    assert_play(&rt, rt.alloc(), "one answer", play, stopped, written);
}

#[test]
fn there_is_no_strategy(rt: HostRuntime) {
    let play = Play {
        board: THREE_CYCLE,
        line_reads: 0,
        ..ANSWERING
    };
    let none = Ok(PlayEnd::NoStrategy);
    assert_play(&rt, rt.alloc(), "the cycle", play, none, NO_STRATEGY);
}

#[test]
fn other_lines_are_no_requests(rt: HostRuntime) {
    let none = Ok(PlayEnd::Stopped { requests: 0 });
    let written =
        b"value 2\nat 0 0\nnot a request\nnot a request\nnot a request\nnot a request\nnot a request\nstopped after 0 requests\n";
    let lines = b"00\n2\n\n 1\n-1\n";
    assert_requests(&rt, rt.alloc(), "five lines", lines, none, written);
    let one = Ok(PlayEnd::Stopped { requests: 1 });
    let replied = b"value 2\nat 0 0\npebble 1 takes 1\nat 0 1\nstopped after 1 requests\n";
    assert_requests(&rt, rt.alloc(), "one request", b"1", one, replied);
}

#[test]
fn long_lines(rt: HostRuntime) {
    let none = Ok(PlayEnd::Stopped { requests: 0 });
    let longest = b"xxxxxxxxxxxxxxxxxxxxxxxxxxxxxxxxxxxxxxxxxxxxxxxxxxxxxxxxxxxxxxxx\n";
    let refused = b"value 2\nat 0 0\nnot a request\nstopped after 0 requests\n";
    assert_requests(&rt, rt.alloc(), "64 bytes", longest, none, refused);
    let longer = b"xxxxxxxxxxxxxxxxxxxxxxxxxxxxxxxxxxxxxxxxxxxxxxxxxxxxxxxxxxxxxxxxx\n";
    let fault = Err(RunFault::Limit);
    assert_requests(&rt, rt.alloc(), "65 bytes", longer, fault, OPENED);
}

#[test]
fn a_long_line_is_seen_at_its_last_byte(rt: HostRuntime) {
    // One more read would fail.
    let play = Play {
        lines: b"xxxxxxxxxxxxxxxxxxxxxxxxxxxxxxxxxxxxxxxxxxxxxxxxxxxxxxxxxxxxxxxxx",
        line_reads: 65,
        ..ASKING
    };
    assert_play(
        &rt,
        rt.alloc(),
        "65 reads",
        play,
        Err(RunFault::Limit),
        OPENED,
    );
}

#[test]
fn boards_with_faults(rt: HostRuntime) {
    let end = Err(RunFault::Board(BoardFault {
        line: 4,
        kind: BoardKind::Start,
    }));
    let play = Play {
        board: "board 1\nlabels 3\npebbles 2\n",
        line_reads: 0,
        ..ASKING
    };
    assert_play(&rt, rt.alloc(), "a cut board", play, end, NOTHING);
    let large = Play {
        board: TOO_MANY_CONFIGURATIONS,
        line_reads: 0,
        ..ANSWERING
    };
    assert_play(
        &rt,
        rt.alloc(),
        "a large board",
        large,
        Err(RunFault::TooLarge),
        NOTHING,
    );
}

#[test]
fn a_read_of_the_board_fails_at_each_call(rt: HostRuntime) {
    for board_reads in 0..=CHAIN_OF_THREE.len() {
        let play = Play {
            board_reads,
            ..ASKING
        };
        let place = ("reads of the board", board_reads);
        assert_play(&rt, rt.alloc(), place, play, Err(RunFault::Read), NOTHING);
    }
}

/// The bytes that are written by the time that this number of bytes of the requests is read.
fn replies_after(read: usize) -> &'static [u8] {
    let size = match read {
        0 | 1 => 15,
        2 | 3 => 39,
        4 | 5 => 53,
        _ => 77,
    };
    REPLIES.get(..size).unwrap_or(NOTHING)
}

#[test]
fn a_read_of_lines_fails_at_each_call(rt: HostRuntime) {
    for line_reads in 0..REQUESTS.len() {
        let play = Play {
            line_reads,
            ..ASKING
        };
        let written = replies_after(line_reads);
        let place = ("reads of lines", line_reads);
        assert_play(&rt, rt.alloc(), place, play, Err(RunFault::Read), written);
    }
}

#[test]
fn a_write_fails_at_each_call(rt: HostRuntime) {
    for (play, text) in [(ASKING, REPLIES), (ANSWERING, ASKED)] {
        for failing in [Failing::Refuses, Failing::TakesNothing] {
            for writes in 0..text.len() {
                let failing_play = Play {
                    writes,
                    failing,
                    ..play
                };
                let written = text.get(..writes).unwrap_or(NOTHING);
                let place = (play.side, "writes", writes);
                let fault = Err(RunFault::Write);
                assert_play(&rt, rt.alloc(), place, failing_play, fault, written);
            }
        }
    }
}

/// The bytes that a writer has taken, as far as there is room.
#[derive(Clone, Copy)]
struct Notes {
    bytes: [u8; ROOM],
    count: usize,
}

impl Notes {
    fn taken(&self) -> &[u8] {
        self.bytes.get(..self.count).unwrap_or(NOTHING)
    }

    fn add(&mut self, from: &[u8]) {
        for byte in from {
            if let Some(place) = self.bytes.get_mut(self.count) {
                *place = *byte;
                self.count = self.count.saturating_add(1);
            }
        }
    }
}

const NO_NOTES: Notes = Notes {
    bytes: [0; ROOM],
    count: 0,
};

/// Takes all bytes, and notes them in a cell that others can look at.
#[derive(Drop)]
struct Noting<'a> {
    noted: &'a Cell<Notes>,
}

impl Sink for Noting<'_> {
    ghost has_failed = { λ _. false };

    fn write(&mut self, from: &[u8]) -> Result<usize, Failed> {
        let mut notes = self.noted.get();
        notes.add(from);
        self.noted.set(notes);
        Ok(from.len())
    }

    fn failed(&self) -> bool {
        false
    }
}

/// Gives one line a call, and looks whether exactly the bytes that are to be written before that
/// line were written.
#[derive(Drop)]
struct Watching<'a> {
    written: &'a [u8],
    lines: &'a [(usize, &'static [u8])],
    calls: usize,
    noted: &'a Cell<Notes>,
    /// The first line that it gave after other bytes: its place, and their number.
    first_wrong: Option<(usize, usize)>,
    has_ended: bool,
}

impl Source for Watching<'_> {
    ghost has_failed = { λ _. false };

    ghost has_ended = { λ s. s.has_ended };

    fn read(&mut self, into: &mut [u8]) -> Result<usize, Failed> {
        let Some((size, line)) = self.lines.get(self.calls) else {
            self.has_ended = !into.is_empty();
            return Ok(0);
        };
        let notes = self.noted.get();
        if self.first_wrong.is_none() && Some(notes.taken()) != self.written.get(..*size) {
            self.first_wrong = Some((self.calls, notes.count));
        }
        self.calls = self.calls.saturating_add(1);
        let size = line.len().min(into.len());
        into[..size].copy_from_slice(&line[..size]);
        self.has_ended = size == 0 && !into.is_empty();
        Ok(size)
    }

    fn failed(&self) -> bool {
        false
    }
}

/// What a watched play comes to.
#[derive(Clone, Copy)]
struct Watched {
    answer: Result<PlayEnd, RunFault>,
    notes: Notes,
    calls: usize,
    first_wrong: Option<(usize, usize)>,
}

/// A play in which each line is to be asked for after the number of written bytes that stands
/// beside it.
fn watched_play(
    alloc: Global,
    side: Side,
    lines: &[(usize, &'static [u8])],
    written: &[u8],
) -> Watched {
    let noted = Cell::new(NO_NOTES);
    let mut watching = Watching {
        written,
        lines,
        calls: 0,
        noted: &noted,
        first_wrong: None,
        has_ended: false,
    };
    let mut board = Drip::new(CHAIN_OF_THREE.as_bytes(), PLENTY);
    let mut writer = Noting { noted: &noted };
    let answer = run_play(alloc, side, &mut board, &mut watching, &mut writer);
    Watched {
        answer,
        notes: noted.get(),
        calls: watching.calls,
        first_wrong: watching.first_wrong,
    }
}

/// Asserts that a play ends stuck, with all bytes written, and that each line is asked for after
/// the number of written bytes that stands beside it. A play that was refused memory has written a
/// prefix, and is played once more.
fn assert_watched(
    rt: &impl Abort,
    alloc: Global,
    side: Side,
    lines: &[(usize, &'static [u8])],
    written: &[u8],
) {
    let mut watched = watched_play(alloc, side, lines, written);
    if watched.answer == Err(RunFault::Memory) {
        assert_same(rt, (side, "without memory"), watched.first_wrong, None);
        let found = watched.notes.taken();
        let prefix = written.get(..found.len()).unwrap_or(written);
        assert_text(rt, (side, "without memory"), found, prefix);
        watched = watched_play(alloc, side, lines, written);
    }
    assert_same(rt, side, watched.first_wrong, None);
    assert_same(rt, side, watched.answer, STUCK);
    assert_text(rt, side, watched.notes.taken(), written);
    assert_same(rt, (side, "lines"), watched.calls, lines.len());
}

#[test]
fn each_answer_is_written_before_the_next_read(rt: HostRuntime) {
    let alloc = rt.alloc();
    let requests: [(usize, &[u8]); 4] = [(15, b"1\n"), (39, b"x\n"), (53, b"0\n"), (77, b"1\n")];
    assert_watched(&rt, alloc, Side::Adversary, &requests, REPLIES);
    let answers: [(usize, &[u8]); 3] = [(21, b"0\n"), (35, b"1\n"), (48, b"2\n")];
    assert_watched(&rt, alloc, Side::Labeller, &answers, ASKED);
}

/// Takes all bytes, and counts them.
#[derive(Drop)]
struct Counting {
    count: usize,
}

impl Sink for Counting {
    ghost has_failed = { λ _. false };

    fn write(&mut self, from: &[u8]) -> Result<usize, Failed> {
        self.count = self.count.saturating_add(from.len());
        Ok(from.len())
    }

    fn failed(&self) -> bool {
        false
    }
}

/// Gives empty lines for ever.
#[derive(Drop)]
struct Junk;

impl Source for Junk {
    ghost has_failed = { λ _. false };

    ghost has_ended = { λ _. false };

    fn read(&mut self, into: &mut [u8]) -> Result<usize, Failed> {
        into.fill(b'\n');
        Ok(into.len())
    }

    fn failed(&self) -> bool {
        false
    }
}

/// The bytes that are written when a million lines were answered: 15 before the first, and 14 for
/// each.
const ANSWERED: usize = 15 + 14_000_000;

/// The answer of a play without an end of its lines, and the number of bytes that it writes.
fn endless_play(alloc: Global) -> (Result<PlayEnd, RunFault>, usize) {
    let mut board = Drip::new(CHAIN_OF_THREE.as_bytes(), PLENTY);
    let mut writer = Counting { count: 0 };
    let answer = run_play(alloc, Side::Adversary, &mut board, &mut Junk, &mut writer);
    (answer, writer.count)
}

#[test]
fn a_million_lines_are_read(rt: HostRuntime) {
    let alloc = rt.alloc();
    let (mut answer, mut count) = endless_play(alloc);
    if answer == Err(RunFault::Memory) {
        assert_same(&rt, "bytes without memory", count.max(ANSWERED), ANSWERED);
        (answer, count) = endless_play(alloc);
    }
    assert_same(
        &rt,
        "a million lines",
        (answer, count),
        (Err(RunFault::Limit), ANSWERED),
    );
}
