//! Solving and reporting over readers and writers that are slow, that fail, and that are refused
//! memory.

use crate::assertions::{assert_same, assert_text};
use crate::outcomes::{NOTHING, Outcome, PLENTY, Writer, assert_answered, assert_run};
use board_text::{BoardFault, BoardKind, Memory, Source};
use fakes::boards::{ONE_PAIR, TOO_MANY_CONFIGURATIONS};
use fakes::documents::PAIR_VALUE_ONE;
use fakes::{Drip, Failing, once_more};
use positions::Value;
use runs::{RunFault, report_text_alone, run_report, run_solve, solve_text_alone};
use std::alloc::Global;
use std::fmt::Debug;
use std::process::Abort;
use std::sync::Wait;
use std::thread::Threads;
use strategies::DocumentText;

/// The report of the board `ONE_PAIR`: if a pebble is on 1, the other has no legal label.
const PAIR_REPORT: &str =
    "report 1\nlabels 2\npebbles 2\nconfigurations 4\nstart value 1\nvalue 0: 3\nvalue 1: 1\nforever: 0\nend\n";

/// The command that is asked for, by one worker or by several.
#[derive(Clone, Copy, Debug, PartialEq, Eq)]
enum Command {
    Solve,
    SolveByTwo,
    Report,
    ReportBySixteen,
}

/// The answer of a run, which has no value if it is a report.
type Answer = Result<Option<Value>, RunFault>;

const VALUE: Answer = Ok(Some(Value::Finite(1)));

/// Each command, with its answer and its text for the board `ONE_PAIR`.
const COMMANDS: [(Command, Answer, &str); 4] = [
    (Command::Solve, VALUE, PAIR_VALUE_ONE),
    (Command::SolveByTwo, VALUE, PAIR_VALUE_ONE),
    (Command::Report, Ok(None), PAIR_REPORT),
    (Command::ReportBySixteen, Ok(None), PAIR_REPORT),
];

/// A board's text, and the number of calls of each end that go well.
#[derive(Clone, Copy)]
struct Ends {
    board: &'static str,
    reads: usize,
    writes: usize,
    failing: Failing,
}

const READY: Ends = Ends {
    board: ONE_PAIR,
    reads: PLENTY,
    writes: PLENTY,
    failing: Failing::Refuses,
};

/// What a run comes to.
fn outcome(
    rt: &(impl Threads + Wait + Sync),
    alloc: Global,
    command: Command,
    ends: Ends,
) -> Outcome<Option<Value>> {
    let mut reader = Drip::new(ends.board.as_bytes(), ends.reads);
    let mut writer = Writer::new(ends.writes, ends.failing);
    let answer = match command {
        Command::Solve => run_solve(rt, alloc, 1, &mut reader, &mut writer).map(Some),
        Command::SolveByTwo => run_solve(rt, alloc, 2, &mut reader, &mut writer).map(Some),
        Command::Report => run_report(rt, alloc, 1, &mut reader, &mut writer).map(|()| None),
        Command::ReportBySixteen => {
            run_report(rt, alloc, 16, &mut reader, &mut writer).map(|()| None)
        }
    };
    Outcome {
        answer,
        read_failed: reader.failed(),
        writer,
    }
}

/// Asserts the answer of a run and the bytes that it writes.
fn assert_command<P: Debug + Copy>(
    rt: &(impl Abort + Threads + Wait + Sync),
    alloc: Global,
    place: P,
    command: Command,
    ends: Ends,
    wanted: Answer,
    written: &[u8],
) {
    let run = || outcome(rt, alloc, command, ends);
    assert_run(rt, (command, place), run, wanted, written, NOTHING);
}

#[test]
fn one_byte_a_call(rt: HostRuntime) {
    for (command, answer, text) in &COMMANDS {
        assert_command(
            &rt,
            rt.alloc(),
            "one pair",
            *command,
            READY,
            *answer,
            text.as_bytes(),
        );
    }
}

/// Asserts the value and the document that a call gives for the pair. A call that was refused
/// memory is made once more.
fn assert_solved<F: Fn() -> Result<DocumentText, RunFault>>(
    rt: &impl Abort,
    alloc: Global,
    place: &str,
    solve: F,
)
    requires { F.IsAlwaysCallable solve }
{
    let solved = once_more(RunFault::Memory, solve).expect(rt, place);
    assert_same(rt, place, solved.value, Value::Finite(1));
    let whole = || joined(alloc, &solved.parts);
    let text = once_more(Memory, whole).expect(rt, place);
    assert_text(rt, place, text.as_slice(), PAIR_VALUE_ONE.as_bytes());
}

/// The parts, one after another.
fn joined(alloc: Global, parts: &[Vec<u8>]) -> Result<Vec<u8>, Memory> {
    let mut text = Vec::new(alloc);
    for part in parts {
        text.extend_from_slice(part.as_slice())?;
    }
    Ok(text)
}

#[test]
fn a_document_in_memory(rt: HostRuntime) {
    let alloc = rt.alloc();
    let pair = ONE_PAIR.as_bytes();
    assert_solved(&rt, alloc, "alone", || solve_text_alone(alloc, pair));
}

#[test]
fn a_report_in_memory(rt: HostRuntime) {
    let alloc = rt.alloc();
    let pair = ONE_PAIR.as_bytes();
    let report = PAIR_REPORT.as_bytes();
    assert_answered(&rt, "alone", || report_text_alone(alloc, pair), report);
}

#[test]
fn faults_write_nothing(rt: HostRuntime) {
    let large = Ends {
        board: TOO_MANY_CONFIGURATIONS,
        ..READY
    };
    let cut = Ends {
        board: "board 1\nlabels 2\npebbles 2\nstart 0 0\nbeats 1 0\n",
        ..READY
    };
    let end = RunFault::Board(BoardFault {
        line: 6,
        kind: BoardKind::End,
    });
    for (command, _, _) in &COMMANDS {
        for (ends, fault) in [(large, RunFault::TooLarge), (cut, end)] {
            assert_command(
                &rt,
                rt.alloc(),
                ends.board,
                *command,
                ends,
                Err(fault),
                NOTHING,
            );
        }
    }
}

#[test]
fn a_read_fails_at_each_call(rt: HostRuntime) {
    for (command, _, _) in &COMMANDS {
        for reads in 0..=ONE_PAIR.len() {
            let ends = Ends { reads, ..READY };
            let fault = Err(RunFault::Read);
            assert_command(
                &rt,
                rt.alloc(),
                ("reads", reads),
                *command,
                ends,
                fault,
                NOTHING,
            );
        }
    }
}

#[test]
fn a_write_fails_at_each_call(rt: HostRuntime) {
    for (command, _, text) in &COMMANDS {
        for failing in [Failing::Refuses, Failing::TakesNothing] {
            for writes in 0..text.len() {
                let ends = Ends {
                    writes,
                    failing,
                    ..READY
                };
                let written = text.as_bytes().get(..writes).unwrap_or(NOTHING);
                let fault = Err(RunFault::Write);
                assert_command(
                    &rt,
                    rt.alloc(),
                    ("writes", writes),
                    *command,
                    ends,
                    fault,
                    written,
                );
            }
        }
    }
}
