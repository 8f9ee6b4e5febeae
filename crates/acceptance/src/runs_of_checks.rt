//! Runs of checks and of nested boards, over readers and writers that are slow, that fail, and that
//! are refused memory.

use crate::assertions::{assert_same, assert_text};
use crate::outcomes::{
    NOTHING, Outcome, PLENTY, Writer, assert_outcome, assert_refused, assert_run,
};
use board_text::{BoardFault, BoardKind, Source};
use fakes::boards::{CHAIN_OF_THREE, CYCLE_WITH_ONE_PEBBLE, TOO_MANY_CONFIGURATIONS};
use fakes::documents::CHAIN_LEAST_TWO;
use fakes::{Drip, Failing};
use proof_check::{CheckFault, Shown, Side};
use proof_text::{Claim, ProofFault, ProofKind};
use runs::{RunFault, Verdict, board_length, run_check, run_joined, run_nested};
use std::alloc::{AllocError, Global};
use std::fmt::Debug;
use std::process::Abort;
use std::thread::Threads;

const ACCEPTED: &[u8] = b"accepted least 2\n";

const REFUSED: &[u8] = b"refused labeller start missing\n";

type Checked = Result<Verdict, RunFault>;

const SHOWN: Checked = Ok(Verdict::Accepted {
    shown: Shown {
        claim: Claim::AtLeast(2),
    },
    rows: 3,
});

/// The parts of a joined text, and the number of calls of each end that go well.
#[derive(Clone, Copy)]
struct Joined {
    board: &'static str,
    document: &'static str,
    reads: usize,
    writes: usize,
    failing: Failing,
}

const JOINED: Joined = Joined {
    board: CHAIN_OF_THREE,
    document: CHAIN_LEAST_TWO,
    reads: PLENTY,
    writes: PLENTY,
    failing: Failing::Refuses,
};

/// The text of a board, and after it that of a document.
fn joined_text(alloc: Global, board: &str, document: &str) -> Result<String, AllocError> {
    let mut text = String::from_str(alloc, board)?;
    text.push_str(document)?;
    Ok(text)
}

/// What a run on a joined text comes to. Where there is no memory for the text, the run is refused
/// memory too.
fn joined_outcome(rt: &(impl Threads + Sync), alloc: Global, joined: Joined) -> Outcome<Verdict> {
    let mut writer = Writer::new(joined.writes, joined.failing);
    let Ok(text) = joined_text(alloc, joined.board, joined.document) else {
        return Outcome {
            answer: Err(RunFault::Memory),
            read_failed: false,
            writer,
        };
    };
    let mut reader = Drip::new(text.as_bytes(), joined.reads);
    let answer = run_joined(rt, alloc, &mut reader, &mut writer);
    Outcome {
        answer,
        read_failed: reader.failed(),
        writer,
    }
}

/// Asserts the answer of a run on a joined text and the bytes that it writes.
fn assert_joined<P: Debug + Copy>(
    rt: &(impl Abort + Threads + Sync),
    alloc: Global,
    place: P,
    joined: Joined,
    wanted: Checked,
    written: &[u8],
) {
    let run = || joined_outcome(rt, alloc, joined);
    assert_run(rt, place, run, wanted, written, NOTHING);
}

/// Texts, and the number of bytes of each that are the board's.
const BOARD_LENGTHS: [(&str, usize); 6] = [
    ("ab\nend\nrest\nend\n", 7),
    ("end\n", 4),
    ("end", 3),
    ("xend\n end\nend \nend", 18),
    ("xend\nend\n", 9),
    (CHAIN_OF_THREE, CHAIN_OF_THREE.len()),
];

#[test]
fn board_lengths(rt: HostRuntime) {
    for (text, length) in &BOARD_LENGTHS {
        assert_same(&rt, *text, board_length(text.as_bytes()), *length);
    }
}

#[test]
fn one_byte_a_call(rt: HostRuntime) {
    let alloc = rt.alloc();
    assert_joined(&rt, alloc, "accepted", JOINED, SHOWN, ACCEPTED);
    let unlisted = Joined {
        document: "proof 1\nleast 1\nlabeller 0\nend\n",
        ..JOINED
    };
    let missing = Ok(Verdict::Refused(CheckFault::StartMissing {
        side: Side::Labeller,
    }));
    assert_joined(&rt, alloc, "refused", unlisted, missing, REFUSED);
}

/// Boards without a document, and the fault of each.
const FAULTS: [(&str, RunFault); 3] = [
    (
        "",
        RunFault::Board(BoardFault {
            line: 1,
            kind: BoardKind::Version,
        }),
    ),
    (
        CHAIN_OF_THREE,
        RunFault::Proof(ProofFault {
            line: 1,
            kind: ProofKind::Version,
        }),
    ),
    (TOO_MANY_CONFIGURATIONS, RunFault::TooLarge),
];

#[test]
fn faults_write_nothing(rt: HostRuntime) {
    for (board, fault) in &FAULTS {
        let joined = Joined {
            board,
            document: "",
            ..JOINED
        };
        assert_joined(&rt, rt.alloc(), *board, joined, Err(*fault), NOTHING);
    }
}

#[test]
fn a_read_fails_at_each_call(rt: HostRuntime) {
    for reads in 0..=CHAIN_OF_THREE.len() + CHAIN_LEAST_TWO.len() {
        let joined = Joined { reads, ..JOINED };
        let fault = Err(RunFault::Read);
        assert_joined(&rt, rt.alloc(), ("reads", reads), joined, fault, NOTHING);
    }
}

#[test]
fn a_write_fails_at_each_call(rt: HostRuntime) {
    for failing in [Failing::Refuses, Failing::TakesNothing] {
        for writes in 0..ACCEPTED.len() {
            let joined = Joined {
                writes,
                failing,
                ..JOINED
            };
            let written = ACCEPTED.get(..writes).unwrap_or(NOTHING);
            let fault = Err(RunFault::Write);
            assert_joined(&rt, rt.alloc(), ("writes", writes), joined, fault, written);
        }
    }
}

/// Two texts, and the number of calls of each end that go well.
#[derive(Clone, Copy)]
struct Ends {
    board: &'static str,
    board_reads: usize,
    proof: &'static str,
    proof_reads: usize,
    writes: usize,
}

/// What a check of two readers comes to, and the bytes of the document that it leaves.
#[derive(Drop)]
struct CheckOutcome {
    outcome: Outcome<Verdict>,
    left: &'static [u8],
}

fn check_outcome(rt: &(impl Threads + Sync), alloc: Global, ends: Ends) -> CheckOutcome {
    let mut board = Drip::new(ends.board.as_bytes(), ends.board_reads);
    let mut proof = Drip::new(ends.proof.as_bytes(), ends.proof_reads);
    let mut writer = Writer::new(ends.writes, Failing::Refuses);
    let answer = run_check(rt, alloc, &mut board, &mut proof, &mut writer);
    let outcome = Outcome {
        answer,
        read_failed: board.failed() || proof.failed(),
        writer,
    };
    CheckOutcome {
        outcome,
        left: proof.rest(),
    }
}

/// Asserts the answer of a check of two readers, the bytes that it writes, and those of the
/// document that it leaves. One that was refused memory is made once more.
fn assert_check<P: Debug + Copy>(
    rt: &(impl Abort + Threads + Sync),
    alloc: Global,
    place: P,
    ends: Ends,
    wanted: Checked,
    written: &[u8],
    left: &[u8],
) {
    let mut check = check_outcome(rt, alloc, ends);
    if check.outcome.answer == Err(RunFault::Memory) {
        assert_refused(rt, place, &check.outcome, NOTHING);
        check = check_outcome(rt, alloc, ends);
    }
    assert_outcome(rt, place, &check.outcome, wanted, written);
    assert_text(rt, (place, "left of the document"), check.left, left);
}

const READY: Ends = Ends {
    board: CHAIN_OF_THREE,
    board_reads: PLENTY,
    proof: CHAIN_LEAST_TWO,
    proof_reads: PLENTY,
    writes: PLENTY,
};

#[test]
fn two_readers(rt: HostRuntime) {
    let alloc = rt.alloc();
    assert_check(&rt, alloc, "accepted", READY, SHOWN, ACCEPTED, NOTHING);
    let document_twice = Ends {
        board: CHAIN_LEAST_TWO,
        ..READY
    };
    let fault = Err(RunFault::Board(BoardFault {
        line: 1,
        kind: BoardKind::Version,
    }));
    let left = CHAIN_LEAST_TWO.as_bytes();
    assert_check(&rt, alloc, "no board", document_twice, fault, NOTHING, left);
    let board_twice = Ends {
        proof: CHAIN_OF_THREE,
        ..READY
    };
    let fault = Err(RunFault::Proof(ProofFault {
        line: 1,
        kind: ProofKind::Version,
    }));
    assert_check(
        &rt,
        alloc,
        "no document",
        board_twice,
        fault,
        NOTHING,
        NOTHING,
    );
}

#[test]
fn two_readers_that_fail_at_each_call(rt: HostRuntime) {
    let alloc = rt.alloc();
    let document = CHAIN_LEAST_TWO.as_bytes();
    for board_reads in 0..=CHAIN_OF_THREE.len() {
        let ends = Ends {
            board_reads,
            ..READY
        };
        let place = ("reads of the board", board_reads);
        assert_check(
            &rt,
            alloc,
            place,
            ends,
            Err(RunFault::Read),
            NOTHING,
            document,
        );
    }
    for proof_reads in 0..=document.len() {
        let ends = Ends {
            proof_reads,
            ..READY
        };
        let place = ("reads of the document", proof_reads);
        let left = document.get(proof_reads..).unwrap_or(NOTHING);
        assert_check(&rt, alloc, place, ends, Err(RunFault::Read), NOTHING, left);
    }
    for writes in 0..ACCEPTED.len() {
        let ends = Ends { writes, ..READY };
        let place = ("writes", writes);
        let written = ACCEPTED.get(..writes).unwrap_or(NOTHING);
        assert_check(
            &rt,
            alloc,
            place,
            ends,
            Err(RunFault::Write),
            written,
            NOTHING,
        );
    }
}

/// What a run of the nested board comes to, with a writer that takes this number of bytes.
fn nested_outcome(alloc: Global, writes: usize) -> Outcome<()> {
    let mut writer = Writer::new(writes, Failing::Refuses);
    let answer = run_nested(alloc, 2, 1, &mut writer);
    Outcome {
        answer,
        read_failed: false,
        writer,
    }
}

#[test]
fn a_nested_board(rt: HostRuntime) {
    let alloc = rt.alloc();
    let text = CYCLE_WITH_ONE_PEBBLE.as_bytes();
    for writes in 0..=text.len() {
        let wanted = if writes < text.len() {
            Err(RunFault::Write)
        } else {
            Ok(())
        };
        let written = text.get(..writes).unwrap_or(text);
        let run = || nested_outcome(alloc, writes);
        assert_run(&rt, ("writes", writes), run, wanted, written, NOTHING);
    }
}
