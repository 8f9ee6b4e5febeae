//! Boards that are limited by their gaps, and not by their configurations.

ghost use Rattle.board_text.specs.Ranges.{InRange};

use crate::assertions::assert_text;
use crate::outcomes::{
    NOTHING, Outcome, PLENTY, Writer, assert_outcome, assert_refused, assert_run,
};
use board_text::{Source, Through};
use command_line::BoardLimit;
use fakes::boards::TOO_MANY_CONFIGURATIONS;
use fakes::{Drip, Failing};
use player::PlayEnd;
use positions::Side;
use round_workers::MAX_WORKERS;
use runs::{Playing, RunFault, Summary, Work};
use std::alloc::Global;
use std::sync::Wait;
use std::thread::Threads;

/// A board of 552,689,424 gaps.
const TOO_MANY_GAPS: &str = "board 1\nlabels 144\npebbles 6\nstart 0 0 0 0 0 0\nend\n";

/// The report of a board of 6,545 gaps, on which no label dominates another.
const REPORT: &str = "report 1\nlabels 33\npebbles 4\nconfigurations 1185921\nstart value 0\n\
    value 0: 1185921\nforever: 0\nend\n";

/// The lines for a person who waits for that report: in round 0 all gaps close.
const TOLD: &[u8] =
    b"a large board: its 6545 gaps, about 0.1 MB, are solved, which can take seconds\n\
    round 1: 0 gaps are open\n";

/// The play on it of a person who answers.
const TRANSCRIPT: &[u8] = b"value 0\nat 0 0 0 0\nask 0\nno label for pebble 0 after 0 requests\n";

/// What a report on this board comes to, within the limit and by this number of workers.
fn report_outcome(
    rt: &(impl Threads + Wait + Sync),
    alloc: Global,
    board: &str,
    limit: BoardLimit,
    workers: u8,
) -> Outcome<()>
    requires { InRange 1 MAX_WORKERS workers }
{
    let mut reader = Drip::new(board.as_bytes(), PLENTY);
    let mut writer = Writer::new(PLENTY, Failing::Refuses);
    let mut nobody = Through::new(Vec::new(alloc));
    let work = Work {
        workers,
        limit,
        shows_size: false,
    };
    let report = Summary::Report;
    let answer = work.summarize(rt, alloc, report, &mut reader, &mut writer, &mut nobody);
    Outcome {
        answer,
        read_failed: reader.failed(),
        writer,
    }
}

#[test]
fn reports(rt: HostRuntime) {
    let alloc = rt.alloc();
    let report = REPORT.as_bytes();
    let large = BoardLimit::Large;
    let board = TOO_MANY_CONFIGURATIONS;
    let by_one = || report_outcome(&rt, alloc, board, large, 1);
    assert_run(&rt, "large, one worker", by_one, Ok(()), report, NOTHING);
    let by_two = || report_outcome(&rt, alloc, board, large, 2);
    assert_run(&rt, "large, two workers", by_two, Ok(()), report, NOTHING);
    let small = || report_outcome(&rt, alloc, board, BoardLimit::Small, 2);
    let refused = Err(RunFault::TooLarge);
    assert_run(&rt, "small", small, refused, NOTHING, NOTHING);
}

/// What a report by one worker comes to, for a person who is told of the board's size, and the
/// bytes that the person is told.
fn notice_outcome(rt: &(impl Threads + Wait + Sync), alloc: Global) -> (Outcome<()>, Writer) {
    let mut reader = Drip::new(TOO_MANY_CONFIGURATIONS.as_bytes(), PLENTY);
    let mut writer = Writer::new(PLENTY, Failing::Refuses);
    let mut errors = Writer::new(PLENTY, Failing::Refuses);
    let work = Work {
        workers: 1,
        limit: BoardLimit::Large,
        shows_size: true,
    };
    let report = Summary::Report;
    let answer = work.summarize(rt, alloc, report, &mut reader, &mut writer, &mut errors);
    let outcome = Outcome {
        answer,
        read_failed: reader.failed(),
        writer,
    };
    (outcome, errors)
}

#[test]
fn a_person_is_told_of_the_size(rt: HostRuntime) {
    let alloc = rt.alloc();
    let (mut outcome, mut errors) = notice_outcome(&rt, alloc);
    if outcome.answer == Err(RunFault::Memory) {
        assert_refused(&rt, "a report", &outcome, NOTHING);
        let told = errors.taken();
        let wanted = TOLD.get(..told.len()).unwrap_or(NOTHING);
        assert_text(&rt, "a notice without memory", told, wanted);
        (outcome, errors) = notice_outcome(&rt, alloc);
    }
    assert_text(&rt, "a notice", errors.taken(), TOLD);
    assert_outcome(&rt, "a report", &outcome, Ok(()), REPORT.as_bytes());
}

/// What a play within this limit comes to, with a person who answers.
fn play_outcome(alloc: Global, limit: BoardLimit) -> Outcome<PlayEnd> {
    let mut board = Drip::new(TOO_MANY_CONFIGURATIONS.as_bytes(), PLENTY);
    let mut lines = Drip::new(NOTHING, PLENTY);
    let mut writer = Writer::new(PLENTY, Failing::Refuses);
    let mut nobody = Through::new(Vec::new(alloc));
    let playing = Playing {
        side: Side::Labeller,
        limit,
        shows_size: false,
        prompts: false,
    };
    let answer = playing.run(alloc, &mut board, &mut lines, &mut writer, &mut nobody);
    Outcome {
        answer,
        read_failed: board.failed() || lines.failed(),
        writer,
    }
}

#[test]
fn plays(rt: HostRuntime) {
    let alloc = rt.alloc();
    let large = || play_outcome(alloc, BoardLimit::Large);
    let stuck = Ok(PlayEnd::Stuck { requests: 0 });
    assert_run(&rt, "large", large, stuck, TRANSCRIPT, TRANSCRIPT);
    let small = || play_outcome(alloc, BoardLimit::Small);
    let refused = Err(RunFault::TooLarge);
    assert_run(&rt, "small", small, refused, NOTHING, NOTHING);
}

#[test]
fn a_board_with_too_many_gaps(rt: HostRuntime) {
    let report = || report_outcome(&rt, rt.alloc(), TOO_MANY_GAPS, BoardLimit::Large, 1);
    let refused = Err(RunFault::TooLarge);
    assert_run(&rt, "144 labels", report, refused, NOTHING, NOTHING);
}
