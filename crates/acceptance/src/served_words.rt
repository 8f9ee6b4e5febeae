//! Words that are served over files in memory: the streams and the status of each end.

ghost use Rattle.std.specs.Prelude.{◌≡◌, Some, false, codes, if◌then◌else◌};
ghost use Rattle.std.specs.Str.{bytes_eq};
ghost use Rattle.serving.specs.Folders.{Closed, Holds};

use crate::assertions::{assert_same, assert_text};
use crate::outcomes::PLENTY;
use board_text::{Failed, Source};
use console::{Console, Terminals};
use fakes::boards::{CHAIN_OF_THREE, LONE_LABEL};
use fakes::documents::{CHAIN_LEAST_TWO, CHAIN_VALUE_TWO};
use fakes::{Drip, Failing, Trickle};
use serving::{Folder, Trouble, Words, serve};
use std::alloc::Global;
use std::fmt::Debug;
use std::process::Abort;
use std::sync::Wait;
use std::thread::Threads;

/// A writer of these tests.
type Stream = Trickle<300>;

/// The number of configurations of each value of the chain of three labels.
const CHAIN_REPORT: &str = "report 1\nlabels 3\npebbles 2\nconfigurations 9\nstart value 2\n\
    value 0: 5\nvalue 1: 3\nvalue 2: 1\nforever: 0\nend\n";

/// The chain of three labels, and a document after it that shows a bound.
const CHAIN_JOINED: &str = "board 1\nlabels 3\npebbles 2\nstart 0 0\n\
    beats 1 0\nbeats 2 0\nbeats 2 1\nend\nproof 1\nleast 2\nlabeller 3\n\
    at 0 0 for 2 take 1 1\nat 0 1 for 1 take 2 1\nat 1 0 for 1 take 1 2\nend\n";

/// A play of one level that is ended at once.
const CLIMBED: &str = "levels 1\nat .\nstopped after 0 requests\n";

const OUT_OF_MEMORY: &str = "out of memory\n";

/// A text that gives one byte a call and never fails.
#[derive(Drop)]
struct Page<'a> {
    rest: &'a [u8],
    has_ended: bool,
}

impl<'a> Page<'a> {
    /// A reader of the text, from its first byte.
    fn new(text: &'a str) -> Page<'a>
        ensures text { result.rest.now ≡ text.now }
        ensures unended { result.has_ended ≡ false }
    {
        Page {
            rest: text.as_bytes(),
            has_ended: false,
        }
    }
}

impl Source for Page<'_> {
    ghost remaining = { λ page. Some page.rest.now };

    ghost has_failed = { λ _. false };

    ghost has_ended = { λ page. page.has_ended };

    fn read(&mut self, into: &mut [u8]) -> Result<usize, Failed> {
        if into.is_empty() {
            return Ok(0);
        }
        if self.rest.is_empty() {
            self.has_ended = true;
            return Ok(0);
        }
        into[0] = self.rest[0];
        self.rest = &self.rest[1..];
        Ok(1)
    }

    fn failed(&self) -> bool {
        false
    }
}

/// A board and a document in memory, and no other files. Their bytes are known.
struct Shelf {
    board: &'static str,
    proof: &'static str,
}

/// The chain of three labels, with a document that shows a bound.
const SHELF: Shelf = Shelf {
    board: CHAIN_OF_THREE,
    proof: CHAIN_LEAST_TWO,
};

impl Folder for Shelf {
    type Reader = Page<'static>;

    ghost at = { λ shelf path. if bytes_eq path (codes "chain.board") then Holds shelf.board.now
        else if bytes_eq path (codes "chain.proof") then Holds shelf.proof.now else Closed };

    fn open(&self, path: &str) -> Result<Page<'static>, Failed> {
        if path == "chain.board" {
            return Ok(Page::new(self.board));
        }
        if path == "chain.proof" {
            return Ok(Page::new(self.proof));
        }
        Err(Failed)
    }

    fn trouble(&self, _path: &str) -> Trouble {
        Trouble::Missing
    }
}

/// Streams that are no terminals.
const NO_TERMINALS: Terminals = Terminals {
    input_closed: false,
    input: false,
    errors: false,
};

/// Streams that are terminals.
const TERMINALS: Terminals = Terminals {
    input_closed: false,
    input: true,
    errors: true,
};

/// A standard input that is closed, and no terminals.
const NO_INPUT: Terminals = Terminals {
    input_closed: true,
    input: false,
    errors: false,
};

/// The status that is wanted, and the texts on standard output and standard error.
#[derive(Clone, Copy)]
struct Wanted {
    status: u8,
    output: &'static str,
    errors: &'static str,
}

/// The job is done, and writes this output.
fn done(output: &'static str) -> Wanted {
    Wanted {
        status: 0,
        output,
        errors: "",
    }
}

/// A file or standard input can't be read.
const UNREAD: Wanted = Wanted {
    status: 5,
    output: "",
    errors: "read fault\n",
};

/// The status that words were served with, and what was written.
#[derive(Drop)]
struct Served {
    status: u8,
    output: Stream,
    errors: Stream,
}

/// What the words are served with, with this standard input.
fn serve_words(
    rt: &(impl Threads + Wait + Sync),
    alloc: Global,
    words: &Words<'_, '_>,
    terminals: Terminals,
    input: &str,
) -> Served {
    let mut console = Console {
        input: Drip::new(input.as_bytes(), PLENTY),
        output: Stream::new(PLENTY, Failing::Refuses),
        errors: Stream::new(PLENTY, Failing::Refuses),
        terminals,
    };
    let status = serve(rt, alloc, words, &SHELF, &mut console);
    Served {
        status,
        output: console.output,
        errors: console.errors,
    }
}

/// Asserts the status, and the texts on standard output and standard error.
fn assert_served<P: Debug + Copy>(rt: &impl Abort, place: P, served: &Served, wanted: Wanted) {
    assert_text(
        rt,
        (place, "errors"),
        served.errors.taken(),
        wanted.errors.as_bytes(),
    );
    assert_same(rt, place, served.status, wanted.status);
    assert_text(
        rt,
        (place, "output"),
        served.output.taken(),
        wanted.output.as_bytes(),
    );
}

/// Asserts what words are served with. If they are refused memory, they are served once more.
fn assert_words(
    rt: &(impl Abort + Threads + Wait + Sync),
    alloc: Global,
    place: &str,
    words: &[&str],
    terminals: Terminals,
    input: &str,
    wanted: Wanted,
) {
    let given = Words::Given(words);
    let mut once = serve_words(rt, alloc, &given, terminals, input);
    if once.status == 4 && once.errors.taken().starts_with(OUT_OF_MEMORY.as_bytes()) {
        once = serve_words(rt, alloc, &given, terminals, input);
    }
    assert_served(rt, place, &once, wanted);
}

/// What is asked for, the words, the bytes of standard input, and the output of the job.
const JOBS: [(&str, &[&str], &str, &str); 8] = [
    (
        "a check",
        &["pebbles", "check", "chain.board", "chain.proof"],
        "",
        "accepted least 2\n",
    ),
    (
        "a play",
        &["pebbles", "play", "--side", "adversary", "chain.board"],
        "1\nquit\n",
        "value 2\nat 0 0\npebble 1 takes 1\nat 0 1\nstopped after 1 requests\n",
    ),
    (
        "a document",
        &["pebbles", "solve", "chain.board"],
        "",
        CHAIN_VALUE_TWO,
    ),
    (
        "a document by two workers",
        &["pebbles", "solve", "--workers", "2", "chain.board"],
        "",
        CHAIN_VALUE_TWO,
    ),
    (
        "a report",
        &["pebbles", "report", "chain.board"],
        "",
        CHAIN_REPORT,
    ),
    (
        "a nested board",
        &["pebbles", "nested", "1", "1"],
        "",
        LONE_LABEL,
    ),
    ("a climb", &["pebbles", "climb", "1"], "quit\n", CLIMBED),
    (
        "a joined text",
        &["pebbles"],
        CHAIN_JOINED,
        "accepted least 2\n",
    ),
];

#[test]
fn each_job(rt: HostRuntime) {
    for (job, words, input, output) in &JOBS {
        assert_words(
            &rt,
            rt.alloc(),
            job,
            words,
            NO_TERMINALS,
            input,
            done(output),
        );
    }
}

/// What is wrong with the words of a check, the words, and what is wanted of them.
const FAULTS: [(&str, &[&str], Wanted); 2] = [
    (
        "exchanged files",
        &["pebbles", "check", "chain.proof", "chain.board"],
        Wanted {
            status: 1,
            output: "",
            errors: "board fault line 1 Version\n",
        },
    ),
    (
        "a missing file",
        &["pebbles", "check", "chain.board", "other.proof"],
        UNREAD,
    ),
];

#[test]
fn checks_with_faults(rt: HostRuntime) {
    for (fault, words, wanted) in &FAULTS {
        assert_words(&rt, rt.alloc(), fault, words, NO_TERMINALS, "", *wanted);
    }
}

#[test]
fn no_words(rt: HostRuntime) {
    let alloc = rt.alloc();
    let no_text = Wanted {
        status: 2,
        output: "",
        errors: "error: a word on the command line is not text\n",
    };
    let mut once = serve_words(&rt, alloc, &Words::NotText, NO_TERMINALS, "");
    if once.status == 4 && once.errors.taken().starts_with(OUT_OF_MEMORY.as_bytes()) {
        once = serve_words(&rt, alloc, &Words::NotText, NO_TERMINALS, "");
    }
    assert_served(&rt, "no text", &once, no_text);
    let no_memory = Wanted {
        status: 4,
        output: "",
        errors: OUT_OF_MEMORY,
    };
    let once = serve_words(&rt, alloc, &Words::OutOfMemory, NO_TERMINALS, "");
    assert_served(&rt, "out of memory", &once, no_memory);
}

#[test]
fn a_closed_standard_input(rt: HostRuntime) {
    let alloc = rt.alloc();
    let words = ["pebbles", "play", "--side", "adversary", "chain.board"];
    assert_words(&rt, alloc, "a play", &words, NO_INPUT, "quit\n", UNREAD);
    let words = ["pebbles", "nested", "1", "1"];
    assert_words(
        &rt,
        alloc,
        "a nested board",
        &words,
        NO_INPUT,
        "",
        done(LONE_LABEL),
    );
}

/// Which words, and the streams that are terminals, by which a missing file is explained.
const EXPLAINED: [(&str, &[&str], Terminals); 3] = [
    (
        "at a terminal",
        &["pebbles", "solve", "other.board"],
        TERMINALS,
    ),
    (
        "before the command",
        &["pebbles", "--explain", "solve", "other.board"],
        NO_TERMINALS,
    ),
    (
        "among its words",
        &["pebbles", "solve", "--explain", "other.board"],
        NO_TERMINALS,
    ),
];

#[test]
fn an_explained_missing_file(rt: HostRuntime) {
    let missing = Wanted {
        status: 5,
        output: "",
        errors: "read fault\nother.board: there is no such file; look for its spelling and its folder\n",
    };
    for (place, words, terminals) in &EXPLAINED {
        assert_words(&rt, rt.alloc(), place, words, *terminals, "", missing);
    }
}
