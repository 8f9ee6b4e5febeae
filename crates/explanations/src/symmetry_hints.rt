//! The words that explain a fault of symmetries, in a document or by themselves.

use crate::hints::{END, TRAILING, first_line_hint, form_hint, number_hint};
use crate::inputs::{Inputs, Origin};
use crate::lines::{flaw, spaces_before};
use crate::parts::{Parts, mistake, two_numbers, words};
use crate::proof_hints::label_hint;
use crate::sizes::Sizes;
use proof_check::{MAX_ELEMENTS, MapFault};
use proof_text::{MAX_MAPS, ProofFault, ProofKind};
use runs::SymmetriesFault;

// The words say these limits.
const _: () = prove!(MAX_MAPS == 64);

const _: () = prove!(MAX_ELEMENTS == 131_072);

/// The form of the first line of symmetries by themselves.
const SYMMETRIES: &str =
    "line 1 must be `symmetries n`, with n at most 64, and nothing may come before it";

/// The form of a map.
pub(crate) const MAP: &str =
    "the line must be `map` and, for each label of the board in turn, the label that it goes to";

/// The mistake of a line that comes before all maps that are said.
pub(crate) const FEWER_MAPS: &str = "there are fewer maps than `symmetries` says";

/// The mistake of a map after all maps that are said.
pub(crate) const MORE_MAPS: &str = "there are more maps than `symmetries` says";

/// The mistake of maps that make more symmetries than `MAX_ELEMENTS`.
pub(crate) const TOO_MANY: &str =
    "one after the other the maps make more than 131072 symmetries; name fewer maps";

/// The words for symmetries that can't be taken.
pub(crate) fn symmetries_hint(fault: SymmetriesFault, inputs: &Inputs<'_, '_>) -> Parts {
    match fault {
        SymmetriesFault::Text(fault) => text_hint(fault, inputs),
        SymmetriesFault::Map { fault, .. } => words(map_fault_hint(fault)),
        SymmetriesFault::TooMany => words(TOO_MANY),
    }
}

/// The words for a fault of the text of symmetries.
fn text_hint(fault: ProofFault, inputs: &Inputs<'_, '_>) -> Parts {
    let given = &inputs.other;
    let line = given.line(fault.line);
    match fault.kind {
        ProofKind::Section => first_hint(given, line),
        ProofKind::Row if given.line_begins(fault.line, "end") => mistake(FEWER_MAPS, MAP),
        ProofKind::Row => map_hint(line, Sizes::of(inputs.board.text)),
        ProofKind::Label => label_hint(inputs),
        ProofKind::End if given.line_begins(fault.line, "map ") => mistake(MORE_MAPS, END),
        ProofKind::End => form_hint(line, END),
        ProofKind::Trailing => words(TRAILING),
        _ => words("memory to read it was refused"),
    }
}

/// The words for a first line that isn't that of symmetries.
fn first_hint(given: &Origin<'_, '_>, line: Option<&[u8]>) -> Parts {
    if given.text.starts_with("board ".as_bytes()) {
        return words("it is a board and has no symmetries; are the two files exchanged?");
    }
    if given.text.starts_with("proof ".as_bytes()) {
        return words(
            "it is a strategy document; of a `proof 3` take the line `symmetries` and the maps, \
            and add `end`",
        );
    }
    match first_line_hint(given.text) {
        Some(mistake) => words(mistake),
        None => number_hint(line, "symmetries", u64::from(MAX_MAPS), SYMMETRIES),
    }
}

/// The words for a line that should be a map.
pub(crate) fn map_hint(line: Option<&[u8]>, sizes: Option<Sizes>) -> Parts {
    match (line, sizes) {
        (Some(line), Some(sizes)) if flaw(line).is_none() => images_hint(line, sizes),
        _ => form_hint(line, MAP),
    }
}

/// The words for the images of a map.
fn images_hint(line: &[u8], sizes: Sizes) -> Parts {
    let labels = u64::from(sizes.labels);
    match spaces_before(line, "\n".as_bytes()) {
        Some(images) if line.starts_with("map ".as_bytes()) && images != labels => {
            two_numbers(
                ("labels in the line: ", images),
                (", labels of the board: ", labels),
                MAP,
            )
        }
        _ => words(MAP),
    }
}

/// The words for a map that is no symmetry.
pub(crate) fn map_fault_hint(fault: MapFault) -> &'static str {
    match fault {
        MapFault::Missing { .. } => {
            "no label goes to this one by the map of this number, counted from 1, so another one \
            is an image twice"
        }
        MapFault::Pair { .. } => {
            "the map of this number, counted from 1, doesn't keep domination: the first of these \
            labels dominates the second, and the image of the first doesn't that of the second, or \
            the other way round"
        }
    }
}
