//! The inputs of a job, as far as they explain a fault.

use crate::lines::{from_line, split_line};
use crate::trouble::Trouble;
use command_line::BoardLimit;
use runs::{
    MAX_BOARD_BYTES, MAX_JOINED_BYTES, MAX_PROOF_BYTES, MAX_SYMMETRIES_BYTES, board_length,
};

// The words say these limits.
const _: () = prove!(MAX_BOARD_BYTES == 1_048_576);

const _: () = prove!(MAX_PROOF_BYTES == 134_217_728);

const _: () = prove!(MAX_JOINED_BYTES == 134_217_728);

const _: () = prove!(MAX_SYMMETRIES_BYTES == 65_536);

/// The limits of a board, in words.
const BOARD_LIMITS: &str = "a board has at most 1048576 bytes";

/// The limits of symmetries, in words.
const SYMMETRIES_LIMITS: &str = "a text of symmetries has at most 65536 bytes";

/// The limits of a document and of a joined input, in words.
const PROOF_LIMITS: &str = "an input has at most 134217728 bytes";

/// The limits of the lines of a play, in words.
const LINE_LIMITS: &str = "a line of a play has at most 64 bytes, and a play at most 1000000 lines";

/// The name of standard input in explanations.
pub(crate) const STANDARD_INPUT: &str = "standard input";

/// The name of the document in a joined input.
const AFTER_THE_BOARD: &str = "standard input after the board";

/// How the texts of a job are given.
#[derive(Clone, Copy, PartialEq, Eq)]
pub(crate) enum Given {
    /// In a file that is alone.
    Alone,
    /// In a file for each.
    Apart,
    /// One after the other, on standard input.
    Joined,
}

/// The inputs of a job: the board, and the document, the symmetries or the lines of a play.
#[derive(Clone, Copy)]
pub struct Inputs<'a, 'h> {
    pub(crate) given: Given,
    /// How large the board may be; for a check its document says it.
    pub(crate) limit: Option<BoardLimit>,
    pub(crate) board: Origin<'a, 'h>,
    pub(crate) other: Origin<'a, 'h>,
    /// The lines of a play; the other input, if they are none.
    pub(crate) lines: Origin<'a, 'h>,
}

impl<'a, 'h> Inputs<'a, 'h> {
    /// A board in a file, within the `limit`, and what else is read.
    pub fn alone(
        limit: BoardLimit,
        board: Origin<'a, 'h>,
        other: Origin<'a, 'h>,
    ) -> Inputs<'a, 'h> {
        Inputs {
            given: Given::Alone,
            limit: Some(limit),
            board,
            other,
            lines: other,
        }
    }

    /// A board within the `limit` and symmetries of its domain, in two files.
    pub fn with_symmetries(
        limit: BoardLimit,
        board: Origin<'a, 'h>,
        symmetries: Origin<'a, 'h>,
    ) -> Inputs<'a, 'h> {
        Inputs {
            given: Given::Apart,
            limit: Some(limit),
            board,
            other: symmetries,
            lines: symmetries,
        }
    }

    /// The same, and the lines of a play.
    pub fn and_lines(self, lines: Origin<'a, 'h>) -> Inputs<'a, 'h> {
        Inputs { lines, ..self }
    }

    /// Whether the second file has symmetries.
    pub(crate) fn have_symmetries(&self) -> bool {
        self.given == Given::Apart && self.limit.is_some()
    }

    /// A board and a document in two files.
    pub fn apart(board: Origin<'a, 'h>, other: Origin<'a, 'h>) -> Inputs<'a, 'h> {
        Inputs {
            given: Given::Apart,
            limit: None,
            board,
            other,
            lines: other,
        }
    }
}

impl<'h> Inputs<'static, 'h> {
    /// The board with which the text on standard input begins, and the document after it. The
    /// trouble is that of standard input.
    pub fn joined(text: &'h [u8], trouble: Option<Trouble>) -> Inputs<'static, 'h> {
        let (board, document) = text.split_at(board_length(text));
        let input = Origin {
            is_whole: true,
            ..Origin::standard_input(trouble, PROOF_LIMITS)
        };
        let other = Origin {
            name: AFTER_THE_BOARD,
            text: document,
            ..input
        };
        Inputs {
            given: Given::Joined,
            limit: None,
            board: Origin {
                text: board,
                ..input
            },
            other,
            lines: other,
        }
    }
}

impl Inputs<'static, 'static> {
    /// Those of a job that reads no file, and possibly standard input, which may have this trouble.
    pub fn without_files(trouble: Option<Trouble>) -> Inputs<'static, 'static> {
        let lines = Origin::lines(trouble);
        Inputs::alone(BoardLimit::Small, lines, lines)
    }
}

/// An input of a job.
#[derive(Clone, Copy)]
pub struct Origin<'a, 'h> {
    /// Its path, or the name of standard input.
    pub(crate) name: &'a str,
    /// Its first bytes, as far as they are known.
    pub(crate) text: &'h [u8],
    /// Whether these are all of its bytes.
    pub(crate) is_whole: bool,
    /// Why it couldn't be read, if it couldn't.
    pub(crate) trouble: Option<Trouble>,
    /// Whether more bytes came than it may have.
    pub(crate) is_too_long: bool,
    /// Its limits, in words.
    pub(crate) limits: &'static str,
}

impl<'a, 'h> Origin<'a, 'h> {
    /// The board at a path: its first bytes, as far as they are known, the number of bytes that
    /// were read, and why it couldn't be read to its end, if it couldn't.
    pub fn board(
        path: &'a str,
        text: &'h [u8],
        count: usize,
        trouble: Option<Trouble>,
    ) -> Origin<'a, 'h> {
        Origin {
            name: path,
            text,
            is_whole: count == text.len(),
            trouble,
            is_too_long: count > MAX_BOARD_BYTES,
            limits: BOARD_LIMITS,
        }
    }

    /// The document at a path, in the same way.
    pub fn document(
        path: &'a str,
        text: &'h [u8],
        count: usize,
        trouble: Option<Trouble>,
    ) -> Origin<'a, 'h> {
        Origin {
            is_too_long: count > MAX_PROOF_BYTES,
            limits: PROOF_LIMITS,
            ..Origin::board(path, text, count, trouble)
        }
    }

    /// The symmetries at a path, in the same way.
    pub fn symmetries(
        path: &'a str,
        text: &'h [u8],
        count: usize,
        trouble: Option<Trouble>,
    ) -> Origin<'a, 'h> {
        Origin {
            is_too_long: count > MAX_SYMMETRIES_BYTES,
            limits: SYMMETRIES_LIMITS,
            ..Origin::board(path, text, count, trouble)
        }
    }
}

impl Origin<'static, 'static> {
    /// The lines of a play on standard input, which may have this trouble.
    pub fn lines(trouble: Option<Trouble>) -> Origin<'static, 'static> {
        Origin::standard_input(trouble, LINE_LIMITS)
    }

    /// Standard input, of which no byte is known.
    fn standard_input(trouble: Option<Trouble>, limits: &'static str) -> Origin<'static, 'static> {
        Origin {
            name: STANDARD_INPUT,
            text: &[],
            is_whole: false,
            trouble,
            is_too_long: false,
            limits,
        }
    }
}

impl<'h> Origin<'_, 'h> {
    /// The line with this number, if it is known; it is empty after the last one.
    pub(crate) fn line(&self, number: u32) -> Option<&'h [u8]> {
        let line = split_line(from_line(self.text, number)).0;
        if self.is_whole || line.ends_with("\n".as_bytes()) {
            Some(line)
        } else {
            None
        }
    }

    /// Whether the line with this number begins with these words.
    pub(crate) fn line_begins(&self, number: u32, words: &str) -> bool {
        from_line(self.text, number).starts_with(words.as_bytes())
    }
}
