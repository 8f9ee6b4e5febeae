//! Writing explanations.

ghost use Rattle.std.specs.Prelude.{ℕ, List};
ghost use Rattle.board_text.specs.LineForms.{with_line_feed};
ghost use Rattle.console.specs.Showing.{HasNoControl, IsMore};

use crate::notes::Note;
use crate::parts::Part;
use board_text::Sink;
use console::{write_digits, write_more, write_shown};

/// Writes an explanation, as one line without control characters.
pub fn write_note<E: Sink>(note: &Note<'_>, errors: &mut E)
    ensures { (words : List ℕ) × HasNoControl words
        × IsMore E.contents E.has_failed errors.old errors.new (with_line_feed words) }
{
    write_shown(errors, note.about);
    write_more(errors, ": ");
    write_parts(note.parts.as_slice(), errors);
    write_more(errors, "\n");
}

/// Writes the parts of an explanation, one after the other.
fn write_parts<E: Sink>(parts: &[Part], errors: &mut E)
    ensures { (text : List ℕ) × HasNoControl text
        × IsMore E.contents E.has_failed errors.old errors.new text }
{
    for part in parts {
        write_part(*part, errors);
    }
}

/// Writes a part of an explanation.
fn write_part<E: Sink>(part: Part, errors: &mut E)
    ensures { (text : List ℕ) × HasNoControl text
        × IsMore E.contents E.has_failed errors.old errors.new text }
{
    match part {
        Part::Words(words) => write_shown(errors, words),
        Part::Number(number) => write_digits(errors, number),
    }
}
