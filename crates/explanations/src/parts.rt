//! Explanations in parts: words, and numbers that were found.

ghost use Rattle.std.specs.Prelude.{◌≤◌, length};

use arrayvec::ArrayVec;

/// An explanation has at most this many parts.
const MAX_PARTS: usize = 6;

/// A part of an explanation.
#[derive(Clone, Copy)]
pub(crate) enum Part {
    Words(&'static str),
    Number(u64),
}

impl Default for Part {
    fn default() -> Part {
        Part::Words("")
    }
}

/// The parts of an explanation.
pub(crate) type Parts = ArrayVec<Part, MAX_PARTS>;

/// What is between a mistake and the form that is asked for.
const THEN: Part = Part::Words("; ");

/// These parts, one after the other.
pub(crate) fn joined(parts: &[Part]) -> Parts
    requires { length parts.now ≤ MAX_PARTS }
{
    Parts::try_from(parts).unwrap()
}

/// These words.
pub(crate) fn words(words: &'static str) -> Parts {
    joined(&[Part::Words(words)])
}

/// These words, and others after them.
pub(crate) fn two_words(first: &'static str, second: &'static str) -> Parts {
    joined(&[Part::Words(first), Part::Words(second)])
}

/// A mistake, and the form that is asked for.
pub(crate) fn mistake(mistake: &'static str, form: &'static str) -> Parts {
    joined(&[Part::Words(mistake), THEN, Part::Words(form)])
}

/// A number between words.
pub(crate) fn around(before: &'static str, number: u64, after: &'static str) -> Parts {
    joined(&[
        Part::Words(before),
        Part::Number(number),
        Part::Words(after),
    ])
}

/// A mistake that ends with a number, and the form that is asked for.
pub(crate) fn number_mistake(mistake: &'static str, number: u64, form: &'static str) -> Parts {
    joined(&[
        Part::Words(mistake),
        Part::Number(number),
        THEN,
        Part::Words(form),
    ])
}

/// A number, how it stands to another one, and the form that is asked for.
pub(crate) fn compared(
    number: u64,
    relation: &'static str,
    other: u64,
    form: &'static str,
) -> Parts {
    joined(&[
        Part::Number(number),
        Part::Words(relation),
        Part::Number(other),
        THEN,
        Part::Words(form),
    ])
}

/// Two numbers, each after its words, and the form that is asked for.
pub(crate) fn two_numbers(
    first: (&'static str, u64),
    second: (&'static str, u64),
    form: &'static str,
) -> Parts {
    joined(&[
        Part::Words(first.0),
        Part::Number(first.1),
        Part::Words(second.0),
        Part::Number(second.1),
        THEN,
        Part::Words(form),
    ])
}
