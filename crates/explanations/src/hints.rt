//! The words that explain a fault of a board, by its kind and by the line that it names.

use crate::inputs::{Given, Inputs, Origin};
use crate::lines::{
    flaw, has_leading_zero, has_sign, line_above, line_with, number_in, pair_in, spaces_before,
};
use crate::parts::{Parts, around, compared, mistake, number_mistake, two_numbers, words};
use crate::sizes::Sizes;
use board_text::{BoardFault, BoardKind, MAX_LABELS, MAX_PEBBLES};

// The words say these limits.
const _: () = prove!(MAX_LABELS == 256);

const _: () = prove!(MAX_PEBBLES == 6);

/// The form of line 3 of a board.
const PEBBLES: &str =
    "line 3 must be `pebbles P`, with P from 1 to 6, no leading zero and no space at the end";

/// The form of line 4 of a board.
const START: &str =
    "line 4 must be `start` and a place for each pebble: a label below V, or `-` (in `board 2`, \
    once at least, and never in `board 1`), with single spaces and none at the end";

/// The form of the first line.
const VERSION: &str =
    "line 1 must be `board 1`, or `board 2` if some pebble has no label, and nothing may come \
    before it";

/// The form of a line of a pair.
const BEATS: &str =
    "the line must be `beats X Y`, with labels X and Y below V and no leading zero, or `end`";

/// The mistake of a label that begins with `0` and has more digits.
const LEADING_ZERO: &str = "no label has a leading zero";

/// The order of the pairs.
const ORDER: &str = "lines `beats X Y` must ascend by X and then by Y, as numbers, each once; \
    `grep beats FILE | sort -n -k2 -k3 | uniq` writes them so";

/// The last line of a text.
pub(crate) const END: &str = "the last line must be `end`, with its line feed";

/// The words for a fault of the board.
pub(crate) fn board_hint(fault: BoardFault, inputs: &Inputs<'_, '_>) -> Parts {
    let board = &inputs.board;
    let line = board.line(fault.line);
    match fault.kind {
        BoardKind::Version => version_hint(inputs, line),
        BoardKind::Labels => number_hint(
            line,
            "labels",
            256,
            "line 2 must be `labels V`, with V from 1 to 256, no leading zero and no space at the \
            end",
        ),
        BoardKind::Pebbles => number_hint(line, "pebbles", 6, PEBBLES),
        BoardKind::Start => start_hint(board, line),
        BoardKind::Beats => pair_hint(board, line),
        BoardKind::SelfBeat => {
            words("no label dominates itself: the two labels of the line must differ")
        }
        BoardKind::TwoWay => two_way_hint(board, fault.line, line),
        BoardKind::Order => order_hint(board, fault.line, line),
        BoardKind::End => form_hint(line, END),
        BoardKind::Trailing => trailing_hint(board, fault.line),
        BoardKind::Memory => words("memory to read it was refused"),
    }
}

/// The words for a first line that is none of a board's.
fn version_hint(inputs: &Inputs<'_, '_>, line: Option<&[u8]>) -> Parts {
    let text = inputs.board.text;
    if text.starts_with("proof ".as_bytes()) {
        return words(document_in_its_place(inputs));
    }
    match first_line_hint(text) {
        Some(mistake) => words(mistake),
        None => form_hint(line, VERSION),
    }
}

/// The words for a document in place of the board.
fn document_in_its_place(inputs: &Inputs<'_, '_>) -> &'static str {
    match inputs.given {
        Given::Apart if inputs.board.name != inputs.other.name => {
            "it is a strategy document and no board; are the two files exchanged?"
        }
        Given::Joined => "it begins with a strategy document, and the board must come before that",
        _ => "it is a strategy document and no board",
    }
}

/// The mistake in a first line that the first bytes of its text show, if they show one.
pub(crate) fn first_line_hint(text: &[u8]) -> Option<&'static str> {
    let head = &text[..text.len().min(32)];
    if head.is_empty() {
        Some("it is empty")
    } else if head.starts_with(&[0xEF, 0xBB, 0xBF]) {
        Some("it begins with a byte order mark; save it as plain text without one")
    } else if head.contains(&0) || head.starts_with(&[0xFF, 0xFE]) {
        Some("it is no plain text, perhaps UTF-16; save it as ASCII")
    } else if !head.contains(&b'\r') {
        None
    } else if head.contains(&b'\n') {
        Some("its lines end as on Windows; `sed 's/\\r$//'` takes the carriage returns away")
    } else {
        Some(
            "its lines end with a carriage return alone; `tr '\\r' '\\n'` makes line feeds of them",
        )
    }
}

/// The words for a line that hasn't its form: its mistake, if it has one that no form has, and the
/// form.
pub(crate) fn form_hint(line: Option<&[u8]>, form: &'static str) -> Parts {
    match line {
        Some(line) => match flaw(line) {
            Some(found) => mistake(found, form),
            None => words(form),
        },
        None => words(form),
    }
}

/// The words for a line of `word` and a number, which is too large or hasn't its form.
pub(crate) fn number_hint(line: Option<&[u8]>, word: &str, most: u64, form: &'static str) -> Parts {
    match number_of(line, word) {
        Some(number) if u64::from(number) > most => {
            compared(u64::from(number), " is more than ", most, form)
        }
        _ => form_hint(line, form),
    }
}

/// The number in a line of `word` and one number, if the line is known.
pub(crate) fn number_of(line: Option<&[u8]>, word: &str) -> Option<u32> {
    number_in(line?, word)
}

/// The words for a fault of the fourth line.
fn start_hint(board: &Origin<'_, '_>, line: Option<&[u8]>) -> Parts {
    match (line, Sizes::of(board.text)) {
        (Some(line), Some(sizes)) if flaw(line).is_none() => places_hint(line, sizes),
        _ => form_hint(line, START),
    }
}

/// The words for the places in a fourth line.
fn places_hint(line: &[u8], sizes: Sizes) -> Parts {
    let places = spaces_before(line, "\n".as_bytes()).unwrap_or(0);
    let has_hyphen = line.contains(&b'-');
    if !line.starts_with("start ".as_bytes()) {
        words(START)
    } else if places != u64::from(sizes.pebbles) {
        places_differ(places, sizes, START)
    } else if has_sign(line) {
        mistake("a `-` with digits after it is no label", START)
    } else if sizes.version == 1 && has_hyphen {
        mistake("a `-` is in the line of a `board 1`", START)
    } else if sizes.version == 2 && !has_hyphen {
        mistake("no `-` is in the line of a `board 2`", START)
    } else if has_leading_zero(line) {
        mistake(LEADING_ZERO, START)
    } else {
        labels_below(sizes, START)
    }
}

/// The words for a line that has another number of places than the board has pebbles.
pub(crate) fn places_differ(places: u64, sizes: Sizes, form: &'static str) -> Parts {
    let pebbles = u64::from(sizes.pebbles);
    two_numbers(
        ("places in the line: ", places),
        (", pebbles: ", pebbles),
        form,
    )
}

/// The words for a line with something else than a label of the board.
pub(crate) fn labels_below(sizes: Sizes, form: &'static str) -> Parts {
    number_mistake(
        "labels of this board are below ",
        u64::from(sizes.labels),
        form,
    )
}

/// The words for a line that should be a pair.
fn pair_hint(board: &Origin<'_, '_>, line: Option<&[u8]>) -> Parts {
    match (pair_of(line), Sizes::of(board.text)) {
        (Some(pair), Some(sizes)) => {
            let greatest = pair.0.max(pair.1);
            compared(
                u64::from(greatest),
                " is no label of this board: they are below ",
                u64::from(sizes.labels),
                BEATS,
            )
        }
        _ => match line {
            Some(line) if flaw(line).is_none() && has_leading_zero(line) => {
                mistake(LEADING_ZERO, BEATS)
            }
            _ => form_hint(line, BEATS),
        },
    }
}

/// The two labels of a line `beats X Y`, if the line is known.
fn pair_of(line: Option<&[u8]>) -> Option<(u16, u16)> {
    pair_in(line?)
}

/// The words for a pair that stands the other way round before.
fn two_way_hint(board: &Origin<'_, '_>, number: u32, line: Option<&[u8]>) -> Parts {
    match earlier_turned(board, number, line) {
        Some(earlier) => around(
            "line ",
            u64::from(earlier),
            " has the same two labels the other way round; only one of the two may dominate the \
            other",
        ),
        None => words(
            "an earlier line has the same two labels the other way round; only one of the two may \
            dominate the other",
        ),
    }
}

/// The number of the line before this one that has its labels the other way round.
fn earlier_turned(board: &Origin<'_, '_>, number: u32, line: Option<&[u8]>) -> Option<u32> {
    let (x, y) = pair_of(line)?;
    line_with(board.text, number, (y, x))
}

/// The words for a pair that isn't greater than the one before.
fn order_hint(board: &Origin<'_, '_>, number: u32, line: Option<&[u8]>) -> Parts {
    let Some(pair) = pair_of(line) else {
        return words(ORDER);
    };
    if let Some(same) = line_with(board.text, number, pair) {
        return number_mistake("the same pair is in line ", u64::from(same), ORDER);
    }
    match line_above(board.text, number, pair) {
        Some(above) => {
            number_mistake(
                "the pair belongs before that of line ",
                u64::from(above),
                ORDER,
            )
        }
        None => words(ORDER),
    }
}

/// The words for bytes after the end of a board.
fn trailing_hint(board: &Origin<'_, '_>, number: u32) -> Parts {
    if board.line_begins(number, "proof ") {
        return words(
            "a strategy document comes after the board; a file of both is checked by `pebbles < \
            FILE`, and BOARD is a board alone",
        );
    }
    words(TRAILING)
}

/// The rule of the end of a text.
pub(crate) const TRAILING: &str = "nothing may follow the line `end`, no empty line either";
