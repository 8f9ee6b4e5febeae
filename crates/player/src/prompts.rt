//! What a person at a terminal is told: a greeting, before each line how many more requests are
//! answered and what can be typed, after a line with a blank that it has one, and at the end
//! whether the play could have gone on, or have ended before.

ghost use Rattle.std.specs.Prelude.{◌≤◌, ℕ, List};
ghost use Rattle.player.specs.Inside.Prompts.{IsToldHere, IsToldAtEnd, greeting_if, hint_if};
ghost use Rattle.player.specs.Inside.Prompts.{listed_label_words};
ghost use Rattle.player.specs.Prompts.{better_words, count_words, least_words, most_words};
ghost use Rattle.player.specs.Prompts.{pebble_choices, requests_words, start_words};
ghost use Rattle.console.specs.Showing.{HasNoControl, IsMore, shown};

use crate::end::PlayEnd;
use crate::line_meaning::LineMeaning;
use crate::turns::Play;
use board_text::Sink;
use console::{write_digits, write_line, write_more, write_shown};
use positions::Value;

/// The greeting of a person who asks for pebbles.
pub(crate) const PEBBLES_GREETING: &str =
    "type the number of a pebble, of which the first is 0; `quit` or Ctrl-D ends the play";

/// The greeting of a person who answers with labels.
pub(crate) const LABELS_GREETING: &str =
    "type a label for the pebble that is asked for; `quit` or Ctrl-D ends the play";

/// The largest number of labels that a person is told one by one.
pub(crate) const MOST_LISTED: u16 = 20;

/// Greets the person, if there is one to see it.
pub(crate) fn greet<P: Play, E: Sink>(play: &P, shows: bool, errors: &mut E)
    ensures { IsMore E.contents E.has_failed errors.old errors.new
        (greeting_if shows (P.game play.now)) }
{
    if !shows {
        return;
    }
    write_line(errors, play.greeting());
}

/// Tells how many more requests are answered, and what can be typed, if there is a person to see
/// it.
pub(crate) fn prompt<P: Play, E: Sink>(play: &P, shows: bool, errors: &mut E)
    ensures { (told : List ℕ) × IsToldHere shows (P.game play.now) (P.at play.now) told
        × IsMore E.contents E.has_failed errors.old errors.new told }
{
    if !shows {
        return;
    }
    play.tell_left(errors);
    play.tell_choices(errors);
    write_more(errors, "\n");
}

/// Tells that a line of this `meaning` has a blank, if it has one and there is a person to see it.
pub(crate) fn tell_blank<E: Sink>(meaning: LineMeaning, shows: bool, errors: &mut E)
    ensures { IsMore E.contents E.has_failed errors.old errors.new (hint_if shows meaning) }
{
    if !shows {
        return;
    }
    if let LineMeaning::Other { has_blank: true } = meaning {
        write_line(
            errors,
            "a space or a tab is in the line: type the number alone",
        );
    }
}

/// Writes the words for how many more requests are answered at least from a configuration of this
/// `value`.
pub(crate) fn tell_least<E: Sink>(errors: &mut E, value: Value)
    ensures words { IsMore E.contents E.has_failed errors.old errors.new (least_words value) }
    ensures plain { HasNoControl (least_words value) }
{
    match value {
        Value::Finite(number) => {
            write_more(errors, "at least ");
            write_digits(errors, u64::from(number));
            write_more(errors, " more will be answered, however you ask; ");
        }
        Value::Forever => write_more(
            errors,
            "requests will be answered for ever, however you ask; ",
        ),
    }
}

/// Writes the words for how many more requests are answered at most from a configuration of this
/// `value`.
pub(crate) fn tell_most<E: Sink>(errors: &mut E, value: Value)
    ensures words { IsMore E.contents E.has_failed errors.old errors.new (most_words value) }
    ensures plain { HasNoControl (most_words value) }
{
    match value {
        Value::Finite(number) => {
            write_more(errors, "at most ");
            write_digits(errors, u64::from(number));
            write_more(errors, " more can be answered; ");
        }
        Value::Forever => write_more(errors, "requests can be answered for ever; "),
    }
}

/// Tells that the play could have gone on, if its `end` came before the `value` of the start, or
/// that better requests would have ended it, if more were answered; and if there is a person to see
/// it.
pub(crate) fn tell_last<E: Sink>(value: Value, end: PlayEnd, shows: bool, errors: &mut E)
    ensures { (told : List ℕ) × IsToldAtEnd shows value end told
        × IsMore E.contents E.has_failed errors.old errors.new told }
{
    if !shows {
        return;
    }
    if end.is_before(value) {
        tell_start(errors, value);
        write_more(errors, "\n");
        return;
    }
    if let Some(number) = end.passed(value) {
        tell_better(errors, number);
        write_more(errors, "\n");
    }
}

/// Writes the words for how many requests could be answered from a start of this `value`.
fn tell_start<E: Sink>(errors: &mut E, value: Value)
    ensures { IsMore E.contents E.has_failed errors.old errors.new (shown (start_words value)) }
{
    match value {
        Value::Finite(number) => {
            write_digits(errors, u64::from(number));
            write_shown(
                errors,
                " can be answered from the start: the play could have gone on",
            );
        }
        Value::Forever => write_shown(
            errors,
            "requests can be answered from the start for ever: the play could have gone on",
        ),
    }
}

/// Writes the words for better requests, which would have ended the play after `number` of them.
fn tell_better<E: Sink>(errors: &mut E, number: u32)
    ensures { IsMore E.contents E.has_failed errors.old errors.new (shown (better_words number)) }
{
    write_shown(errors, "better requests would have ended the play after ");
    tell_requests(errors, number);
}

/// Writes the words for `number` requests.
fn tell_requests<E: Sink>(errors: &mut E, number: u32)
    ensures { IsMore E.contents E.has_failed errors.old errors.new
        (shown (requests_words number)) }
{
    if number == 1 {
        write_shown(errors, "1 request");
        return;
    }
    write_digits(errors, u64::from(number));
    write_shown(errors, " requests");
}

/// Writes the `label` after a space, if fewer than `MOST_LISTED` labels, `count`, come before it.
pub(crate) fn tell_label<E: Sink>(errors: &mut E, count: u16, label: u16)
    ensures words { IsMore E.contents E.has_failed errors.old errors.new
        (listed_label_words count label) }
    ensures plain { HasNoControl (listed_label_words count label) }
{
    if count < MOST_LISTED {
        write_more(errors, " ");
        write_digits(errors, u64::from(label));
    }
}

/// Writes the words for the number of labels, `count`, if they are more than are listed.
pub(crate) fn tell_count<E: Sink>(errors: &mut E, count: u16)
    ensures words { IsMore E.contents E.has_failed errors.old errors.new (count_words count) }
    ensures plain { HasNoControl (count_words count) }
{
    if count > MOST_LISTED {
        write_more(errors, ", the first ");
        write_digits(errors, u64::from(MOST_LISTED));
        write_more(errors, " of ");
        write_digits(errors, u64::from(count));
    }
}

/// Writes the words for the pebbles that can be asked for, of which there are `pebbles`.
pub(crate) fn tell_pebble_choices<E: Sink>(errors: &mut E, pebbles: u8)
    requires { 1 ≤ pebbles }
    ensures { IsMore E.contents E.has_failed errors.old errors.new
        (shown (pebble_choices pebbles)) }
{
    if pebbles == 1 {
        write_shown(errors, "type 0, the only pebble, or quit");
        return;
    }
    write_shown(errors, "type a pebble, 0 to ");
    write_digits(errors, u64::from(pebbles - 1));
    write_shown(errors, ", or quit");
}
