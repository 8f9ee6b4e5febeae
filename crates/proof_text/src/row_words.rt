//! The words of a row, taken from the start of a text, with their values.

ghost use Rattle.std.specs.Prelude.{◌≡◌, ◌≢◌, ℕ, ◌+◌, ◌<◌, ◌≤◌, length, option_map, MatchOption};
ghost use Rattle.std.specs.Prelude.{Some, None};
ghost use Rattle.positions.specs.declared.turns.Turns.TheVariants.{Count, Always};
ghost use Rattle.board_text.specs.declared.line_reader.Numeral.TheVariants.{Number};
ghost use Rattle.proof_text.specs.Proof.{AreTurns};
ghost use Rattle.proof_text.specs.Inside.Reading.{TakesConfiguration, TakesTurns, TakesAnswerWords};
ghost use Rattle.proof_text.specs.Inside.Reading.{TakesRequestWords, TakesClassRequestWords};

use crate::proof::MAX_TURNS;
use board_text::line_reader::{LineReader, Numeral};
use positions::{Claim, Turns};

/// The values of the words of a labeller's row, beside its places and its answers.
#[derive(Clone, Copy)]
pub(crate) struct AnswerValues {
    /// Each place of the configuration is one of the board.
    pub are_places: bool,
    /// The turns, if the claim allows them.
    pub turns: Option<Turns>,
    /// Each answer is a label.
    pub are_answers: bool,
}

/// The values of the words of an adversary's row, beside its places.
#[derive(Clone, Copy)]
pub(crate) struct RequestValues {
    /// Each place of the configuration is one of the board.
    pub are_places: bool,
    /// The number of answers left, if it is in range.
    pub left: Option<u32>,
    /// The requested pebble, if it is one.
    pub ask: Option<u16>,
}

/// The values of the words of an adversary's row by classes, beside its places and the asked place.
#[derive(Clone, Copy)]
pub(crate) struct ClassRequestValues {
    /// Each place of the configuration is one of the board.
    pub are_places: bool,
    /// The number of answers left, if it is in range.
    pub left: Option<u32>,
    /// The asked place is one of the board.
    pub is_place: bool,
}

/// Takes the words of a labeller's row from `text`; `None` if it doesn't begin with such.
pub(crate) fn answer_words(
    text: &mut LineReader<'_>,
    labels: u16,
    places: u16,
    claim: Claim,
    at: &mut [u16],
    take: &mut [u16],
) -> Option<AnswerValues>
    requires some { 0 < length at.old }
    requires same { length take.old ≡ length at.old }
    requires places { (labels ≤ places) × (places ≤ labels + 1) }
    ensures { TakesAnswerWords
        (length at.old) labels places claim result at.new take.new text.old text.new }
{
    let are_places = configuration(text, labels, places, at)?;
    let turns = turns(text, claim)?;
    text.take(b" take")?;
    let are_answers = text.places(take, labels, labels)?;
    text.take(b"\n")?;
    Some(AnswerValues {
        are_places,
        turns,
        are_answers,
    })
}

/// Takes the words of an adversary's row from `text`; `None` if it doesn't begin with such.
pub(crate) fn request_words(
    text: &mut LineReader<'_>,
    labels: u16,
    places: u16,
    pebbles: u8,
    at: &mut [u16],
) -> Option<RequestValues>
    requires some { 0 < length at.old }
    requires same { length at.old ≡ pebbles }
    requires places { (labels ≤ places) × (places ≤ labels + 1) }
    ensures { TakesRequestWords pebbles labels places result at.new text.old text.new }
{
    let are_places = configuration(text, labels, places, at)?;
    let left = text.numeral()?.within(0, MAX_TURNS);
    text.take(b" ask ")?;
    let ask = text.numeral()?.below(pebbles as u16);
    text.take(b"\n")?;
    Some(RequestValues {
        are_places,
        left,
        ask,
    })
}

/// Takes the words of an adversary's row by classes from `text`; `None` if it doesn't begin with
/// such.
pub(crate) fn class_request_words(
    text: &mut LineReader<'_>,
    labels: u16,
    places: u16,
    at: &mut [u16],
    ask: &mut [u16],
) -> Option<ClassRequestValues>
    requires some { 0 < length at.old }
    requires one { length ask.old ≡ 1 }
    requires places { (labels ≤ places) × (places ≤ labels + 1) }
    ensures { TakesClassRequestWords
        (length at.old) labels places result at.new ask.new text.old text.new }
{
    let are_places = configuration(text, labels, places, at)?;
    let left = text.numeral()?.within(0, MAX_TURNS);
    text.take(b" ask")?;
    let is_place = text.places(ask, labels, places)?;
    text.take(b"\n")?;
    Some(ClassRequestValues {
        are_places,
        left,
        is_place,
    })
}

/// Takes `at`, the places of a configuration, and ` for `. `Some(true)`: each is one of `places`
/// places, and they are written.
fn configuration(
    text: &mut LineReader<'_>,
    labels: u16,
    places: u16,
    at: &mut [u16],
) -> Option<bool>
    requires some { 0 < length at.old }
    requires places { (labels ≤ places) × (places ≤ labels + 1) }
    ensures { TakesConfiguration (length at.old) labels places
        (option_map (λ are. (are, at.new)) result) text.old text.new }
{
    text.take(b"at")?;
    let are_places = text.places(at, labels, places)?;
    text.take(b" for ")?;
    Some(are_places)
}

/// Takes a star or digits from `text`, and returns the turns
/// that they spell, if `claim` allows them.
fn turns(text: &mut LineReader<'_>, claim: Claim) -> Option<Option<Turns>>
    ensures { TakesTurns claim result text.old text.new }
{
    if text.take(b"*").is_some() {
        return Some(always(claim));
    }
    Some(count(claim, text.numeral()?))
}

/// Turns without end, if `claim` allows them.
fn always(claim: Claim) -> Option<Turns>
    ensures { MatchOption result (AreTurns claim Always → ⊥)
        (λ turns. AreTurns claim turns × (turns ≡ Always)) }
{
    match claim {
        Claim::Forever => Some(Turns::Always),
        _ => None,
    }
}

/// The turns that `numeral` spells, if `claim` allows them.
fn count(claim: Claim, numeral: Numeral) -> Option<Turns>
    ensures { MatchOption result ((n : ℕ) → AreTurns claim (Count n) → numeral ≢ Number n)
        (λ turns. AreTurns claim turns × ((n : ℕ) × (turns ≡ Count n) × (numeral ≡ Number n))) }
{
    match claim {
        Claim::Forever => None,
        _ => Some(Turns::Count(numeral.within(1, MAX_TURNS)?)),
    }
}
