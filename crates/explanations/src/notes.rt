//! Explanations of faults, of refused documents and of wrong use.

use crate::hints::board_hint;
use crate::inputs::{Inputs, STANDARD_INPUT};
use crate::parts::{Part, Parts, around, joined, two_words, words};
use crate::proof_hints::{class_refusal_hint, proof_hint, refusal_hint, symmetry_refusal_hint};
use crate::sizes::Sizes;
use crate::symmetry_hints::symmetries_hint;
use crate::trouble::Trouble;
use crate::usage::usage_hint;
use command_line::BoardLimit;
use gap_values::MAX_GAPS;
use orbits::MAX_ORBITS;
use positions::MAX_CONFIGURATIONS;
use runs::{MAX_PROOF_BYTES, RunFault, Verdict};

// The words say these limits.
const _: () = prove!(MAX_PROOF_BYTES == 134_217_728);

const _: () = prove!(MAX_CONFIGURATIONS == 1_048_576);

const _: () = prove!(MAX_GAPS == 536_870_912);

const _: () = prove!(MAX_ORBITS == 16_777_216);

/// The end of the explanation of wrong use.
const USAGE: &str =
    "`pebbles --help` lists the commands, and `pebbles help COMMAND` the words of one";

/// An explanation: the name of a file or of a stream, and what to look for there.
#[derive(Drop)]
pub struct Note<'a> {
    pub(crate) about: &'a str,
    pub(crate) parts: Parts,
}

impl<'a> Note<'a> {
    /// The explanation of `fault` in a job over `inputs`.
    pub fn of(fault: RunFault, inputs: &Inputs<'a, '_>) -> Note<'a> {
        let board = &inputs.board;
        let other = &inputs.other;
        let lines = &inputs.lines;
        match fault {
            RunFault::Board(fault) => Note {
                about: board.name,
                parts: board_hint(fault, inputs),
            },
            RunFault::TooLarge => Note {
                about: board.name,
                parts: too_large_hint(inputs),
            },
            RunFault::DocumentTooLarge => Note {
                about: board.name,
                parts: long_document_hint(board.text),
            },
            RunFault::LastsForever => Note::new(
                board.name,
                "requests are answered for ever, so there is no strategy for the adversary",
            ),
            RunFault::TooManyChains => Note {
                about: board.name,
                parts: many_chains_hint(),
            },
            RunFault::TooManyOrbits => Note {
                about: board.name,
                parts: many_orbits_hint(),
            },
            RunFault::Proof(fault) => Note {
                about: other.name,
                parts: proof_hint(fault, inputs),
            },
            RunFault::Symmetries(fault) => Note {
                about: other.name,
                parts: symmetries_hint(fault, inputs),
            },
            RunFault::Memory => Note::new(
                "memory",
                "the system gave no more; one worker takes least, and a smaller board less",
            ),
            RunFault::Worker => Note::new(
                "threads",
                "the system started no more of them; one worker, the default, needs none",
            ),
            RunFault::Read => match (board.trouble, other.trouble) {
                (Some(trouble), _) => Note::unread(board.name, trouble),
                (None, Some(trouble)) => Note::unread(other.name, trouble),
                _ => Note::unread(lines.name, lines.trouble.unwrap_or(Trouble::Other)),
            },
            RunFault::Write => Note::new(
                "standard output",
                "it took no more; was it closed, as by `head`, or is the disk full?",
            ),
            RunFault::Limit if board.is_too_long => Note::new(board.name, board.limits),
            RunFault::Limit if other.is_too_long => Note::new(other.name, other.limits),
            RunFault::Limit => Note::new(lines.name, lines.limits),
        }
    }

    /// The explanation of how the check of `inputs` ended. It is empty if the document was
    /// accepted.
    pub fn of_check(checked: Result<Verdict, RunFault>, inputs: &Inputs<'a, '_>) -> Note<'a> {
        match checked {
            Ok(Verdict::Accepted { .. }) => Note::empty(),
            Ok(Verdict::Refused(fault)) => refused(refusal_hint(fault), inputs),
            Ok(Verdict::RefusedByClasses(fault)) => refused(class_refusal_hint(fault), inputs),
            Ok(Verdict::RefusedUpToSymmetries(fault)) => {
                refused(symmetry_refusal_hint(fault), inputs)
            }
            Err(fault) => Note::of(fault, inputs),
        }
    }

    /// The explanation of an input of this name that couldn't be opened or read.
    pub fn unread(name: &'a str, trouble: Trouble) -> Note<'a> {
        let about = if name.is_empty() {
            "the empty path"
        } else {
            name
        };
        Note {
            about,
            parts: trouble_hint(name, trouble),
        }
    }

    /// An explanation without a number.
    fn new(about: &'a str, said: &'static str) -> Note<'a> {
        Note {
            about,
            parts: words(said),
        }
    }
}

impl Note<'static> {
    /// No explanation, of a job that was done.
    pub fn empty() -> Note<'static> {
        Note::new("", "")
    }

    /// The explanation of a job that reads standard input, which is closed.
    pub fn no_input() -> Note<'static> {
        Note::new(
            STANDARD_INPUT,
            "it is closed, and this job reads it; give it with `<`, or by a pipe",
        )
    }

    /// The explanation of `words`, the program's name first, that are none of the program's.
    pub fn of_words(words: &[&str]) -> Note<'static> {
        Note {
            about: "pebbles",
            parts: two_words(usage_hint(words), USAGE),
        }
    }

    /// The explanation of a word that isn't text.
    pub fn no_text() -> Note<'static> {
        Note::new(
            "pebbles",
            "a path must be UTF-8; rename the file, or give it as standard input (/dev/stdin)",
        )
    }
}

/// The explanation of a refused document, by the rule that it breaks.
fn refused<'a>(rule: &'static str, inputs: &Inputs<'a, '_>) -> Note<'a> {
    Note {
        about: inputs.other.name,
        parts: two_words(rule, "; is it the document of another board?"),
    }
}

/// Why an input of this name can't be opened or read, and what to do.
fn trouble_hint(name: &str, trouble: Trouble) -> Parts {
    match trouble {
        Trouble::Missing if name == "-" => words(
            "there is no file of this name; standard input is /dev/stdin, or is read when there \
            are no words",
        ),
        Trouble::Missing => words("there is no such file; look for its spelling and its folder"),
        Trouble::Forbidden => words("you may not read it; `chmod +r` permits it"),
        Trouble::Folder if name == "/dev/stdin" => {
            words("it is closed, or a folder; give it with `<`, or by a pipe")
        }
        Trouble::Folder => words("it is a folder; name a file in it"),
        Trouble::NoFolder => words("a word of the path before a `/` names a file and no folder"),
        Trouble::Loop => words("its symbolic links lead back to themselves"),
        Trouble::LongName => words("the path, or a name in it, is longer than the system allows"),
        Trouble::Coded(code) => around(
            "the system could not open it; the number of its reason is ",
            u64::from(code),
            "",
        ),
        Trouble::Other => words("the system could not read it"),
    }
}

/// The words for a board that is too large for the job of `inputs`, or for a check.
fn too_large_hint(inputs: &Inputs<'_, '_>) -> Parts {
    let Some(sizes) = Sizes::of(inputs.board.text) else {
        return words(
            "it has more configurations than 1048576: labels to the power of pebbles, in `board 2` \
            with one label more",
        );
    };
    match inputs.limit {
        None => without_rows_for_classes(sizes),
        Some(_) if inputs.have_symmetries() => with_orbits(sizes),
        Some(BoardLimit::Small) if sizes.has_few_gaps() => with_few_gaps(sizes),
        Some(_) => with_many_gaps(sizes),
    }
}

/// The words for a board with these first bytes whose document by classes is too long.
fn long_document_hint(board: &[u8]) -> Parts {
    let Some(sizes) = Sizes::of(board) else {
        return words("its document has more bytes than 134217728, the most that `check` reads");
    };
    around(
        "of its ",
        sizes.classes(),
        " classes more are listed than fit into 134217728 bytes, the most that `check` reads",
    )
}

/// The words for a board with too many chains of one length.
fn many_chains_hint() -> Parts {
    words("it has more chains of one length than 68719476736; `--most` stops at shorter ones")
}

/// The words for a board with too many orbits.
fn many_orbits_hint() -> Parts {
    words(
        "up to these symmetries it has more orbits than 16777216, each the gaps that they take to \
        one another; more of its symmetries leave fewer",
    )
}

/// The words for a board with too many configurations to be solved by its orbits without `--large`.
fn with_orbits(sizes: Sizes) -> Parts {
    around(
        "",
        sizes.configurations(),
        " configurations, and the most is 1048576; with `--large` and symmetries any number is \
        taken",
    )
}

/// The words for a board with too many configurations for a document that lists them.
fn without_rows_for_classes(sizes: Sizes) -> Parts {
    around(
        "",
        sizes.configurations(),
        " configurations, and the most is 1048576; only a document by classes or up to symmetries, \
        whose first line is `proof 2` or `proof 3`, is checked for a larger board",
    )
}

/// The words for a board with too many configurations, whose gaps are few enough.
fn with_few_gaps(sizes: Sizes) -> Parts {
    joined(&[
        Part::Number(sizes.configurations()),
        Part::Words(" configurations, and the most is 1048576; but its "),
        Part::Number(sizes.gaps()),
        Part::Words(" gaps are few enough for `--large`"),
        Part::Words(ending_hint(sizes)),
    ])
}

/// The words for a board with too many gaps.
fn with_many_gaps(sizes: Sizes) -> Parts {
    joined(&[
        Part::Number(sizes.gaps()),
        Part::Words(
            " gaps, each the labels of all pebbles but one, whichever pebble holds which, and the \
            most is 536870912, with `--large`",
        ),
        Part::Words(ending_hint(sizes)),
    ])
}

/// What is known of a board that is too large, if it has few labels.
fn ending_hint(sizes: Sizes) -> &'static str {
    if sizes.has_few_labels() {
        "; no start of this board lasts for ever, since n pebbles need 2^n - 1 labels"
    } else {
        ""
    }
}
