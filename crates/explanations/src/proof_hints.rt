//! The words that explain a fault of a strategy document, by its kind and by the line that it
//! names.

use crate::hints::{
    END, TRAILING, first_line_hint, form_hint, labels_below, number_hint, number_of, places_differ,
};
use crate::inputs::{Given, Inputs, Origin};
use crate::lines::{flaw, spaces_before};
use crate::parts::{Parts, mistake, number_mistake, two_numbers, words};
use crate::sizes::Sizes;
use crate::symmetry_hints::{FEWER_MAPS, MAP, MORE_MAPS, TOO_MANY, map_fault_hint, map_hint};
use positions::MAX_CONFIGURATIONS;
use proof_check::{CheckFault, ClassFault, Side, SymmetryFault};
use proof_text::{MAX_CLASS_ROWS, MAX_MAPS, MAX_TURNS, ProofFault, ProofKind};
use runs::{DocumentVersion, board_length, version_of};

// The words say these limits.
const _: () = prove!(MAX_TURNS == 1_000_000_000);

const _: () = prove!(MAX_CONFIGURATIONS == 1_048_576);

const _: () = prove!(MAX_CLASS_ROWS == 16_777_216);

const _: () = prove!(MAX_MAPS == 64);

/// The form of the second line.
const CLAIM: &str =
    "line 2 must be `value k`, `least k`, `most k` or `forever`, with k at most 1000000000";

/// The form of the first line of a section.
const SECTION: &str =
    "the line must be `labeller n` or `adversary n`, as the claim asks for, with n at most 1048576";

/// The same, of a document by classes or up to symmetries.
const CLASS_SECTION: &str =
    "the line must be `labeller n` or `adversary n`, as the claim asks for, with n at most \
    16777216";

/// The form of the line before the maps.
const SYMMETRIES: &str = "line 3 must be `symmetries n`, with n at most 64";

/// The sections of each claim.
const SECTIONS: &str =
    "`value` has the labeller's section and then the adversary's, `least` and `forever` have the \
    labeller's alone, and `most` the adversary's";

/// The mistake of a section that isn't due.
const NOT_DUE: &str = "the claim asks for no such section here";

/// The form of the first line.
const VERSION: &str =
    "line 1 must be `proof 1`, or `proof 2` for rows by classes, or `proof 3` for rows up to \
    symmetries, and nothing may come before it";

/// The form of a row.
const ROW: &str =
    "the line must be a row, `at .. for .. take ..` or `at .. for .. ask ..`, for as many pebbles \
    as the board has";

/// The words for a fault of the document.
pub(crate) fn proof_hint(fault: ProofFault, inputs: &Inputs<'_, '_>) -> Parts {
    let proof = &inputs.other;
    let line = proof.line(fault.line);
    match fault.kind {
        ProofKind::Version => version_hint(inputs, line),
        ProofKind::Claim => claim_hint(line),
        ProofKind::Section => section_hint(proof, fault.line, line),
        ProofKind::Row => row_hint(inputs, fault.line, line),
        ProofKind::Label => label_hint(inputs),
        ProofKind::Pebble if has_arranged_rows(proof) => {
            words("the place after `ask` must be one of those of the row, which some pebble holds")
        }
        ProofKind::Pebble => pebble_hint(inputs),
        ProofKind::Number => words(
            "a row has `*` in a `forever` document, and in any other a number: from 1 for the \
            labeller, from 0 for the adversary, to 1000000000",
        ),
        ProofKind::Order if has_arranged_rows(proof) => words(
            "the places of a row must be arranged, `-` before labels and labels ascending, and the \
            rows of a section must ascend by them, `-` first, each class once",
        ),
        ProofKind::Order => words(
            "the rows of a section must ascend by their labels, as numbers, that of the first \
            pebble first, each configuration once",
        ),
        ProofKind::End => end_hint(proof, fault.line, line),
        ProofKind::Trailing => words(TRAILING),
        ProofKind::Memory => words("memory to read it was refused"),
    }
}

/// Whether the document's rows have arranged places.
fn has_arranged_rows(proof: &Origin<'_, '_>) -> bool {
    !matches!(version_of(proof.text), DocumentVersion::ByConfigurations)
}

/// Whether the document has maps.
fn has_maps(proof: &Origin<'_, '_>) -> bool {
    matches!(version_of(proof.text), DocumentVersion::UpToSymmetries)
}

/// The words for a first line that is none of a document's.
fn version_hint(inputs: &Inputs<'_, '_>, line: Option<&[u8]>) -> Parts {
    let text = inputs.other.text;
    if text.starts_with("board ".as_bytes()) {
        return words(board_in_its_place(inputs));
    }
    match first_line_hint(text) {
        Some(_) if text.is_empty() && inputs.given == Given::Joined => {
            words("nothing comes after the board, and a strategy document must")
        }
        Some(mistake) => words(mistake),
        None => form_hint(line, VERSION),
    }
}

/// The words for a board in place of the document.
fn board_in_its_place(inputs: &Inputs<'_, '_>) -> &'static str {
    let text = inputs.other.text;
    if inputs.given == Given::Joined {
        "a second board comes after the board, and a strategy document must"
    } else if text[board_length(text)..].starts_with("proof ".as_bytes()) {
        "it is a board with a strategy document after it; `pebbles < FILE` checks such a file"
    } else if inputs.board.name == inputs.other.name {
        "it is a board and no strategy document; the board is given twice"
    } else {
        "it is a board and no strategy document"
    }
}

/// The words for a fault of the claim.
fn claim_hint(line: Option<&[u8]>) -> Parts {
    let word = match line {
        Some(line) if line.starts_with("value ".as_bytes()) => "value",
        Some(line) if line.starts_with("least ".as_bytes()) => "least",
        _ => "most",
    };
    number_hint(line, word, MAX_TURNS as u64, CLAIM)
}

/// The number of the line that should begin the first section.
fn first_section(proof: &Origin<'_, '_>) -> u32 {
    if has_maps(proof) {
        let maps = number_of(proof.line(3), "symmetries").unwrap_or(0);
        maps.saturating_add(4)
    } else {
        3
    }
}

/// The words for a line that should begin a section, or say how many maps there are.
fn section_hint(proof: &Origin<'_, '_>, number: u32, line: Option<&[u8]>) -> Parts {
    let first = first_section(proof);
    if number < first {
        number_hint(line, "symmetries", u64::from(MAX_MAPS), SYMMETRIES)
    } else if has_maps(proof) && number == first && proof.line_begins(number, "map ") {
        mistake(MORE_MAPS, section_form(proof).1)
    } else if proof.line_begins(number, "at ") {
        let found = if number == first {
            "a row comes before the first line of its section"
        } else {
            "the section before has more rows than its first line says"
        };
        mistake(found, section_form(proof).1)
    } else if proof.line_begins(number, "labeller ") {
        section_number(proof, line, "labeller")
    } else if proof.line_begins(number, "adversary ") {
        section_number(proof, line, "adversary")
    } else if proof.line_begins(number, "end\n") {
        mistake("a section is missing before the line `end`", SECTIONS)
    } else {
        form_hint(line, section_form(proof).1)
    }
}

/// The words for the first line of a section, whose number is too large or which isn't due.
fn section_number(proof: &Origin<'_, '_>, line: Option<&[u8]>, word: &'static str) -> Parts {
    let (most, form) = section_form(proof);
    match number_of(line, word) {
        Some(number) if number <= most => mistake(NOT_DUE, SECTIONS),
        _ => number_hint(line, word, most as u64, form),
    }
}

/// The most rows of a section of the document, and the form of its first line.
fn section_form(proof: &Origin<'_, '_>) -> (u32, &'static str) {
    if has_arranged_rows(proof) {
        (MAX_CLASS_ROWS, CLASS_SECTION)
    } else {
        (MAX_CONFIGURATIONS, SECTION)
    }
}

/// The words for a line that should be a map or a row.
fn row_hint(inputs: &Inputs<'_, '_>, number: u32, line: Option<&[u8]>) -> Parts {
    let proof = &inputs.other;
    let is_next = proof.line_begins(number, "labeller ")
        || proof.line_begins(number, "adversary ")
        || proof.line_begins(number, "end");
    let sizes = Sizes::of(inputs.board.text);
    if number < first_section(proof) {
        let is_next = is_next || proof.line_begins(number, "at ");
        return if is_next {
            mistake(FEWER_MAPS, MAP)
        } else {
            map_hint(line, sizes)
        };
    }
    if is_next {
        return mistake("the section has fewer rows than its first line says", ROW);
    }
    match (line, sizes) {
        (Some(line), Some(sizes)) if flaw(line).is_none() => places_hint(line, sizes),
        _ => form_hint(line, ROW),
    }
}

/// The words for the places of a row.
fn places_hint(line: &[u8], sizes: Sizes) -> Parts {
    match spaces_before(line, " for ".as_bytes()) {
        Some(places) if line.starts_with("at ".as_bytes()) && places != u64::from(sizes.pebbles) =>
            { places_differ(places, sizes, ROW) }
        _ => words(ROW),
    }
}

/// The words for a label of a row.
pub(crate) fn label_hint(inputs: &Inputs<'_, '_>) -> Parts {
    match Sizes::of(inputs.board.text) {
        Some(sizes) => labels_below(sizes, "no label has a leading zero"),
        None => words("a label must be below the board's V, without a leading zero"),
    }
}

/// The words for a pebble of a row.
fn pebble_hint(inputs: &Inputs<'_, '_>) -> Parts {
    match Sizes::of(inputs.board.text) {
        Some(sizes) => number_mistake(
            "pebbles of this board are below ",
            u64::from(sizes.pebbles),
            "no pebble has a leading zero",
        ),
        None => words("a pebble must be below the board's P, without a leading zero"),
    }
}

/// The words for a line that should be the last.
fn end_hint(proof: &Origin<'_, '_>, number: u32, line: Option<&[u8]>) -> Parts {
    if proof.line_begins(number, "at ") {
        mistake(
            "the last section has more rows than its first line says",
            END,
        )
    } else if proof.line_begins(number, "labeller ") || proof.line_begins(number, "adversary ") {
        mistake(NOT_DUE, SECTIONS)
    } else {
        form_hint(line, END)
    }
}

/// The words for a rule that a document breaks.
pub(crate) fn refusal_hint(fault: CheckFault) -> &'static str {
    match fault {
        CheckFault::StartMissing {
            side: Side::Labeller,
        } => { "the start has no row in the labeller's section, and the claim asks for one" }
        CheckFault::StartMissing {
            side: Side::Adversary,
        } => { "the start has no row in the adversary's section, and the claim asks for one" }
        CheckFault::StartNumber {
            side: Side::Labeller,
        } => { "the row of the start has a number below that of the claim" }
        CheckFault::StartNumber {
            side: Side::Adversary,
        } => { "the row of the start has a number above that of the claim" }
        CheckFault::IllegalAnswer { .. } => {
            "the answer of this row for this pebble does not dominate the labels of all other \
            pebbles"
        }
        CheckFault::Unlisted {
            side: Side::Labeller,
            ..
        } => { "the answer of this row for this pebble leads to a configuration that has no row" }
        CheckFault::TooSmall { .. } => {
            "the answer of this row for this pebble leads to a row whose number is too small; it \
            may be one less than that of this row"
        }
        CheckFault::NotStuck { .. } => {
            "this row has the number 0, as if no label were legal, but this one is"
        }
        CheckFault::Unlisted {
            side: Side::Adversary,
            ..
        } => { "this label is legal, and leads to a configuration that has no row" }
        CheckFault::TooLarge { .. } => {
            "this label is legal, and leads to a row whose number is not below that of this row"
        }
        CheckFault::Memory => "",
    }
}

/// The words for a rule that a document by classes breaks.
pub(crate) fn class_refusal_hint(fault: ClassFault) -> &'static str {
    match fault {
        ClassFault::StartMissing { side } => refusal_hint(CheckFault::StartMissing { side }),
        ClassFault::StartNumber { side } => refusal_hint(CheckFault::StartNumber { side }),
        ClassFault::IllegalAnswer { .. } => {
            "the answer of this row for this place does not dominate the labels of all other \
            pebbles; places are counted from 0"
        }
        ClassFault::Unlisted {
            side: Side::Labeller,
            ..
        } => { "the answer of this row for this place leads to a class that has no row" }
        ClassFault::TooSmall { .. } => {
            "the answer of this row for this place leads to a row whose number is too small; it \
            may be one less than that of this row"
        }
        ClassFault::NotStuck { .. } => {
            "this row has the number 0, as if no label were legal, but this one is"
        }
        ClassFault::Unlisted {
            side: Side::Adversary,
            ..
        } => { "this label is legal, and leads to a class that has no row" }
        ClassFault::TooLarge { .. } => {
            "this label is legal, and leads to a row whose number is not below that of this row"
        }
    }
}

/// The words for a rule that a document up to symmetries breaks.
pub(crate) fn symmetry_refusal_hint(fault: SymmetryFault) -> &'static str {
    match fault {
        SymmetryFault::Map { fault, .. } => map_fault_hint(fault),
        SymmetryFault::TooMany => TOO_MANY,
        SymmetryFault::NotLeast { .. } => {
            "a symmetry takes these places to others that come before them, `-` first and labels \
            as numbers; the row must be at the least of all"
        }
        SymmetryFault::Row(fault) => alike_refusal_hint(fault),
        SymmetryFault::Memory => "",
    }
}

/// The words for a rule of rows that a document up to symmetries breaks.
fn alike_refusal_hint(fault: ClassFault) -> &'static str {
    match fault {
        ClassFault::Unlisted {
            side: Side::Labeller,
            ..
        } => {
            "the answer of this row for this place leads to places of which the least alike have \
            no row"
        }
        ClassFault::Unlisted {
            side: Side::Adversary,
            ..
        } => { "this label is legal, and leads to places of which the least alike have no row" }
        _ => class_refusal_hint(fault),
    }
}
