//! The jobs that the words of command lines ask for.

use command_line::{BoardLimit, Job, JobFault, asks_to_explain, job, words_of_job};
use positions::Side;
use std::alloc::Global;
use std::process::Abort;

/// The answer of `job`, which is asked once more if it was refused memory.
pub(crate) fn job_of<'a>(alloc: Global, words: &'a [&'a str]) -> Result<Job<'a>, JobFault> {
    match job(alloc, words) {
        Err(JobFault::Memory) => job(alloc, words),
        answer => answer,
    }
}

/// Asserts that the words ask for this job.
fn assert_asks(rt: &impl Abort, alloc: Global, words: &[&str], wanted: Job<'_>) {
    match job_of(alloc, &*words) {
        Ok(job) => assert_eq!(rt; job, wanted, "at {words:?}"),
        Err(fault) => panic!(rt; "at {words:?}: {fault:?}"),
    }
}

/// Asserts that the words ask for nothing that can be done.
fn assert_usage(rt: &impl Abort, alloc: Global, words: &[&str]) {
    match job_of(alloc, &*words) {
        Err(JobFault::Usage { text }) => {
            assert!(rt; text.starts_with("error: "), "at {words:?}: {text}");
        }
        answer => panic!(rt; "at {words:?}: {answer:?}"),
    }
}

/// Asserts that the words ask for help or for the version, in whose text the other word stands.
fn assert_help(rt: &impl Abort, alloc: Global, words: &[&str], within: &str) {
    match job_of(alloc, &*words) {
        Err(JobFault::Help { text }) => {
            assert!(rt; text.contains(within), "no {within} in {text}");
        }
        answer => panic!(rt; "at {words:?}: {answer:?}"),
    }
}

#[test]
fn no_words(rt: HostRuntime) {
    assert_asks(&rt, rt.alloc(), &[], Job::Joined);
    assert_asks(&rt, rt.alloc(), &["pebbles"], Job::Joined);
}

#[test]
fn checks(rt: HostRuntime) {
    for (words, board, proof) in [
        (["pebbles", "check", "a", "b"].as_slice(), "a", "b"),
        (["pebbles", "check", "", ""].as_slice(), "", ""),
        (["pebbles", "check", "-", "b"].as_slice(), "-", "b"),
        (
            ["pebbles", "check", "--", "--help", "-x"].as_slice(),
            "--help",
            "-x",
        ),
        (
            ["pebbles", "check", "a", "--explain", "b"].as_slice(),
            "a",
            "b",
        ),
    ] {
        assert_asks(&rt, rt.alloc(), words, Job::Check { board, proof });
    }
}

#[test]
fn nested_boards(rt: HostRuntime) {
    for (words, levels, pebbles) in [
        (["pebbles", "nested", "1", "6"].as_slice(), 1, 6),
        (["pebbles", "nested", "6", "1"].as_slice(), 6, 1),
        (["pebbles", "nested", "02", "+3"].as_slice(), 2, 3),
        (["pebbles", "nested", "--", "4", "5"].as_slice(), 4, 5),
        (
            ["pebbles", "nested", "--explain", "4", "5"].as_slice(),
            4,
            5,
        ),
    ] {
        assert_asks(&rt, rt.alloc(), words, Job::Nested { levels, pebbles });
    }
}

#[test]
fn solving(rt: HostRuntime) {
    for (words, workers, limit, board) in [
        (
            ["pebbles", "solve", "a"].as_slice(),
            1,
            BoardLimit::Small,
            "a",
        ),
        (
            ["pebbles", "solve", "--workers", "2", "a"].as_slice(),
            2,
            BoardLimit::Small,
            "a",
        ),
        (
            ["pebbles", "solve", "a", "--workers=16"].as_slice(),
            16,
            BoardLimit::Small,
            "a",
        ),
        (
            ["pebbles", "solve", "--workers", "1", "--", "a"].as_slice(),
            1,
            BoardLimit::Small,
            "a",
        ),
        (
            ["pebbles", "solve", "--large", "b"].as_slice(),
            1,
            BoardLimit::Large,
            "b",
        ),
        (
            ["pebbles", "solve", "b", "--workers=3", "--large"].as_slice(),
            3,
            BoardLimit::Large,
            "b",
        ),
        (
            ["pebbles", "solve", "--", "--large"].as_slice(),
            1,
            BoardLimit::Small,
            "--large",
        ),
    ] {
        let wanted = Job::Solve {
            workers,
            side: None,
            limit,
            symmetries: None,
            board,
        };
        assert_asks(&rt, rt.alloc(), words, wanted);
    }
}

#[test]
fn solving_for_a_side(rt: HostRuntime) {
    for (words, side, limit, board) in [
        (
            ["pebbles", "solve", "--side", "labeller", "a"].as_slice(),
            Side::Labeller,
            BoardLimit::Small,
            "a",
        ),
        (
            ["pebbles", "solve", "a", "--side=adversary", "--large"].as_slice(),
            Side::Adversary,
            BoardLimit::Large,
            "a",
        ),
    ] {
        let wanted = Job::Solve {
            workers: 1,
            side: Some(side),
            limit,
            symmetries: None,
            board,
        };
        assert_asks(&rt, rt.alloc(), words, wanted);
    }
}

#[test]
fn solving_up_to_symmetries(rt: HostRuntime) {
    for (words, symmetries) in [
        (
            ["pebbles", "solve", "--symmetries", "b", "a"].as_slice(),
            "b",
        ),
        (["pebbles", "solve", "a", "--symmetries=b"].as_slice(), "b"),
        (
            ["pebbles", "solve", "a", "--symmetries", "-"].as_slice(),
            "-",
        ),
        (["pebbles", "solve", "a", "--symmetries", ""].as_slice(), ""),
        (["pebbles", "solve", "--symmetries=", "a"].as_slice(), ""),
        (
            ["pebbles", "solve", "--symmetries=--large", "a"].as_slice(),
            "--large",
        ),
    ] {
        let wanted = Job::Solve {
            workers: 1,
            side: None,
            limit: BoardLimit::Small,
            symmetries: Some(symmetries),
            board: "a",
        };
        assert_asks(&rt, rt.alloc(), words, wanted);
    }
}

#[test]
fn solving_up_to_symmetries_beside_other_options(rt: HostRuntime) {
    for (words, side, limit) in [
        (
            ["pebbles", "solve", "--large", "--symmetries", "b", "a"].as_slice(),
            None,
            BoardLimit::Large,
        ),
        (
            ["pebbles", "solve", "--symmetries=b", "--side=labeller", "a"].as_slice(),
            Some(Side::Labeller),
            BoardLimit::Small,
        ),
        (
            [
                "pebbles",
                "solve",
                "a",
                "--side",
                "adversary",
                "--symmetries",
                "b",
                "--large",
            ]
            .as_slice(),
            Some(Side::Adversary),
            BoardLimit::Large,
        ),
    ] {
        let wanted = Job::Solve {
            workers: 1,
            side,
            limit,
            symmetries: Some("b"),
            board: "a",
        };
        assert_asks(&rt, rt.alloc(), words, wanted);
    }
}

#[test]
fn reports(rt: HostRuntime) {
    for (words, workers, limit, board) in [
        (
            ["pebbles", "report", "a"].as_slice(),
            1,
            BoardLimit::Small,
            "a",
        ),
        (
            ["pebbles", "report", "--workers=3", "b"].as_slice(),
            3,
            BoardLimit::Small,
            "b",
        ),
        (
            ["pebbles", "report", "--large", "b"].as_slice(),
            1,
            BoardLimit::Large,
            "b",
        ),
        (
            ["pebbles", "report", "b", "--large", "--workers=3"].as_slice(),
            3,
            BoardLimit::Large,
            "b",
        ),
        (
            ["pebbles", "report", "--", "--large"].as_slice(),
            1,
            BoardLimit::Small,
            "--large",
        ),
    ] {
        let wanted = Job::Report {
            workers,
            limit,
            symmetries: None,
            board,
        };
        assert_asks(&rt, rt.alloc(), words, wanted);
    }
}

#[test]
fn starts(rt: HostRuntime) {
    for (words, workers, limit, board) in [
        (
            ["pebbles", "starts", "a"].as_slice(),
            1,
            BoardLimit::Small,
            "a",
        ),
        (
            ["pebbles", "starts", "b", "--large", "--workers=3"].as_slice(),
            3,
            BoardLimit::Large,
            "b",
        ),
    ] {
        let wanted = Job::Starts {
            workers,
            limit,
            symmetries: None,
            board,
        };
        assert_asks(&rt, rt.alloc(), words, wanted);
    }
    for words in [
        ["pebbles", "starts"].as_slice(),
        ["pebbles", "starts", "--most", "3", "a"].as_slice(),
    ] {
        assert_usage(&rt, rt.alloc(), words);
    }
}

#[test]
fn chains(rt: HostRuntime) {
    for (words, workers, most, board) in [
        (["pebbles", "chains", "a"].as_slice(), 1, 8, "a"),
        (
            ["pebbles", "chains", "--most", "3", "a"].as_slice(),
            1,
            3,
            "a",
        ),
        (
            ["pebbles", "chains", "b", "--most=8", "--workers", "16"].as_slice(),
            16,
            8,
            "b",
        ),
    ] {
        let wanted = Job::Chains {
            workers,
            most,
            board,
        };
        assert_asks(&rt, rt.alloc(), words, wanted);
    }
    for words in [
        ["pebbles", "chains"].as_slice(),
        ["pebbles", "chains", "--most", "0", "a"].as_slice(),
        ["pebbles", "chains", "--most", "9", "a"].as_slice(),
        ["pebbles", "chains", "--large", "a"].as_slice(),
        ["pebbles", "report", "--most", "3", "a"].as_slice(),
    ] {
        assert_usage(&rt, rt.alloc(), words);
    }
}

#[test]
fn plays(rt: HostRuntime) {
    for (words, side, limit) in [
        (
            ["pebbles", "play", "--side", "labeller", "a"].as_slice(),
            Side::Labeller,
            BoardLimit::Small,
        ),
        (
            ["pebbles", "play", "--side=adversary", "a"].as_slice(),
            Side::Adversary,
            BoardLimit::Small,
        ),
        (
            ["pebbles", "play", "a", "--large", "--side", "adversary"].as_slice(),
            Side::Adversary,
            BoardLimit::Large,
        ),
    ] {
        let wanted = Job::Play {
            side,
            limit,
            symmetries: None,
            board: "a",
        };
        assert_asks(&rt, rt.alloc(), words, wanted);
    }
}

#[test]
fn other_commands_up_to_symmetries(rt: HostRuntime) {
    let symmetries = Some("b");
    for (words, wanted) in [
        (
            ["pebbles", "report", "--symmetries", "b", "a"].as_slice(),
            Job::Report {
                workers: 1,
                limit: BoardLimit::Small,
                symmetries,
                board: "a",
            },
        ),
        (
            ["pebbles", "starts", "a", "--large", "--symmetries=b"].as_slice(),
            Job::Starts {
                workers: 1,
                limit: BoardLimit::Large,
                symmetries,
                board: "a",
            },
        ),
        (
            ["pebbles", "play", "--symmetries=b", "--side=labeller", "a"].as_slice(),
            Job::Play {
                side: Side::Labeller,
                limit: BoardLimit::Small,
                symmetries,
                board: "a",
            },
        ),
    ] {
        assert_asks(&rt, rt.alloc(), words, wanted);
    }
}

#[test]
fn climbs(rt: HostRuntime) {
    for (words, levels) in [
        (["pebbles", "climb", "1"].as_slice(), 1),
        (["pebbles", "climb", "24"].as_slice(), 24),
        (["pebbles", "climb", "--", "07"].as_slice(), 7),
        (["pebbles", "climb", "7", "--explain"].as_slice(), 7),
    ] {
        assert_asks(&rt, rt.alloc(), words, Job::Climb { levels });
    }
}

/// Words, whether they ask for explanations, and how many of them a job is read from.
const EXPLAINED: [(&[&str], bool, usize); 7] = [
    (&[], false, 0),
    (&["pebbles"], false, 1),
    (&["pebbles", "--explain"], true, 1),
    (&["pebbles", "--explain", "solve", "a"], true, 3),
    (&["pebbles", "solve", "a", "--explain"], true, 4),
    (&["pebbles", "solve", "--", "--explain"], false, 4),
    (&["--explain", "solve", "a"], false, 3),
];

#[test]
fn words_that_ask_for_explanations(rt: HostRuntime) {
    for (words, asks, count) in &EXPLAINED {
        assert_eq!(rt; asks_to_explain(words), *asks, "at {words:?}");
        assert_eq!(rt; words_of_job(words).len(), *count, "at {words:?}");
    }
}

#[test]
fn words_of_no_command(rt: HostRuntime) {
    for words in [
        ["pebbles", ""].as_slice(),
        ["pebbles", "--"].as_slice(),
        ["pebbles", "chek", "a", "b"].as_slice(),
        ["pebbles", "--explain", "solve", "a"].as_slice(),
    ] {
        assert_usage(&rt, rt.alloc(), words);
    }
}

#[test]
fn wrong_words_of_checks_and_nested_boards(rt: HostRuntime) {
    for words in [
        ["pebbles", "check"].as_slice(),
        ["pebbles", "check", "a"].as_slice(),
        ["pebbles", "check", "a", "b", "c"].as_slice(),
        ["pebbles", "check", "-x", "b"].as_slice(),
        ["pebbles", "check", "--workers=2", "a", "b"].as_slice(),
        ["pebbles", "check", "--large", "a", "b"].as_slice(),
        ["pebbles", "nested", "3"].as_slice(),
        ["pebbles", "nested", "0", "1"].as_slice(),
        ["pebbles", "nested", "7", "1"].as_slice(),
        ["pebbles", "nested", "1", "0"].as_slice(),
        ["pebbles", "nested", "1", "7"].as_slice(),
        ["pebbles", "nested", "-1", "2"].as_slice(),
        ["pebbles", "nested", "1 ", "2"].as_slice(),
        ["pebbles", "nested", "99999999999999999999", "2"].as_slice(),
        ["pebbles", "nested", "--large", "1", "2"].as_slice(),
        ["pebbles", "nested", "--explain", "1", "--explain", "2"].as_slice(),
    ] {
        assert_usage(&rt, rt.alloc(), words);
    }
}

#[test]
fn wrong_words_of_solving_and_reports(rt: HostRuntime) {
    for words in [
        ["pebbles", "solve"].as_slice(),
        ["pebbles", "solve", "a", "b"].as_slice(),
        ["pebbles", "solve", "a", "--workers"].as_slice(),
        ["pebbles", "solve", "--workers", "0", "a"].as_slice(),
        ["pebbles", "solve", "--workers=17", "a"].as_slice(),
        ["pebbles", "solve", "--workers=", "a"].as_slice(),
        ["pebbles", "solve", "--workers=2", "--workers=2", "a"].as_slice(),
        ["pebbles", "solve", "--large", "--large", "a"].as_slice(),
        ["pebbles", "solve", "--symmetries", "b"].as_slice(),
        ["pebbles", "solve", "a", "--symmetries"].as_slice(),
        ["pebbles", "solve", "--symmetries", "--large", "a"].as_slice(),
        ["pebbles", "solve", "--symmetries=b", "--symmetries=b", "a"].as_slice(),
        ["pebbles", "chains", "--symmetries", "b", "a"].as_slice(),
        ["pebbles", "report"].as_slice(),
        ["pebbles", "report", "--large"].as_slice(),
        ["pebbles", "report", "--large=true", "a"].as_slice(),
        ["pebbles", "report", "--large", "--large", "a"].as_slice(),
        ["pebbles", "report", "--workers", "17", "a"].as_slice(),
    ] {
        assert_usage(&rt, rt.alloc(), words);
    }
}

#[test]
fn wrong_words_of_plays_and_climbs(rt: HostRuntime) {
    for words in [
        ["pebbles", "play", "a"].as_slice(),
        ["pebbles", "play", "--side", "labeller"].as_slice(),
        ["pebbles", "play", "--side", "person", "a"].as_slice(),
        ["pebbles", "play", "--side", "Labeller", "a"].as_slice(),
        ["pebbles", "play", "--side", "", "a"].as_slice(),
        ["pebbles", "play", "--side=labeller", "--workers=2", "a"].as_slice(),
        ["pebbles", "climb"].as_slice(),
        ["pebbles", "climb", "0"].as_slice(),
        ["pebbles", "climb", "25"].as_slice(),
        ["pebbles", "climb", "-1"].as_slice(),
        ["pebbles", "climb", "three"].as_slice(),
        ["pebbles", "climb", "3", "3"].as_slice(),
        ["pebbles", "climb", "--side=labeller", "3"].as_slice(),
        ["pebbles", "climb", "--large", "3"].as_slice(),
    ] {
        assert_usage(&rt, rt.alloc(), words);
    }
}

#[test]
fn help_and_the_version(rt: HostRuntime) {
    for (words, within) in [
        (["pebbles", "--version"].as_slice(), "board 2"),
        (["pebbles", "-V"].as_slice(), "board 2"),
        (["pebbles", "--help"].as_slice(), "Exit statuses:"),
        (["pebbles", "-h"].as_slice(), "Exit statuses:"),
        (["pebbles", "help"].as_slice(), "nested"),
        (["pebbles", "help", "check"].as_slice(), "<BOARD> <PROOF>"),
        (["pebbles", "check", "--help"].as_slice(), "<BOARD> <PROOF>"),
        (["pebbles", "nested", "-h"].as_slice(), "<LEVELS> <PEBBLES>"),
        (["pebbles", "solve", "--help"].as_slice(), "[default: 1]"),
        (
            ["pebbles", "help", "solve"].as_slice(),
            "--symmetries <FILE>",
        ),
        (["pebbles", "help", "report"].as_slice(), "--workers <N>"),
        (["pebbles", "help", "play"].as_slice(), "--large"),
        (["pebbles", "climb", "--help"].as_slice(), "<LEVELS>"),
    ] {
        assert_help(&rt, rt.alloc(), words, within);
    }
}
