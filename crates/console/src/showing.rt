//! Writing words for a person, as the lines of a terminal.

ghost use Rattle.std.specs.Prelude.{◌≡◌, ◌<◌, ◌++◌, ◌∷◌, MatchOption, length};
ghost use Rattle.std.specs.Fmt.{decimal};
ghost use Rattle.board_text.specs.LineForms.{with_line_feed};
ghost use Rattle.console.specs.Inside.Showing.{IsWidth};
ghost use Rattle.console.specs.Showing.{HasNoControl, IsMore, are_control, is_control, shown};

use board_text::{Sink, write_all};
use itoa::Buffer;

/// The first of the two bytes of a control character from U+0080 to U+009F.
const FIRST_OF_TWO: u8 = 194;

/// Writes `text`, unless the writer has failed before. Nothing else is done after a failure.
pub fn write_more<W: Sink>(writer: &mut W, text: &str)
    ensures { IsMore W.contents W.has_failed writer.old writer.new text.now }
{
    write_bytes(writer, text.as_bytes());
}

/// Writes the bytes, unless the writer has failed before.
fn write_bytes<W: Sink>(writer: &mut W, bytes: &[u8])
    ensures { IsMore W.contents W.has_failed writer.old writer.new bytes.now }
{
    if !writer.failed() && !bytes.is_empty() {
        let _ = write_all(writer, bytes);
    }
}

/// Writes `words` as one line, as `write_shown` does.
pub fn write_line<E: Sink>(errors: &mut E, words: &str)
    ensures { IsMore E.contents E.has_failed errors.old errors.new
        (with_line_feed (shown words.now)) }
{
    write_shown(errors, words);
    write_more(errors, "\n");
}

/// Writes `text` with a question mark for each of its control characters, unless the writer has
/// failed before. So a path can't begin another line or command a terminal that reads UTF-8.
pub fn write_shown<E: Sink>(errors: &mut E, text: &str)
    ensures { IsMore E.contents E.has_failed errors.old errors.new (shown text.now) }
{
    let mut rest = text.as_bytes();
    while let Some((plain, later)) = around_control(rest) {
        write_bytes(errors, plain);
        write_more(errors, "?");
        rest = later;
    }
    write_bytes(errors, rest);
}

/// Writes the decimal digits of `number`, unless the writer has failed before.
pub fn write_digits<E: Sink>(errors: &mut E, number: u64)
    ensures digits { IsMore E.contents E.has_failed errors.old errors.new (decimal number) }
    ensures plain { HasNoControl (decimal number) }
{
    let mut digits = Buffer::new();
    write_more(errors, digits.format(number));
}

/// The bytes before the first control character, and those after it, if there is one.
fn around_control(bytes: &[u8]) -> Option<(&[u8], &[u8])>
    ensures { MatchOption result (shown bytes.now ≡ bytes.now)
        (λ parts. (shown bytes.now ≡ parts.0.now ++ 63 ∷ shown parts.1.now)
        × (length parts.1.now < length bytes.now)) }
{
    for at in 0..bytes.len() {
        let width = control_width(bytes, at);
        if width > 0 {
            return Some((&bytes[..at], &bytes[at + width..]));
        }
    }
    None
}

/// The number of bytes of the control character at the index `at`, or 0.
#[tactic(auto, unfolding(crate::specs::Showing::shown))]
fn control_width(bytes: &[u8], at: usize) -> usize
    requires { at < length bytes.now }
    ensures { IsWidth bytes.now at result }
{
    let byte = bytes[at];
    if is_control(byte) {
        return 1;
    }
    if at + 1 == bytes.len() {
        return if byte == FIRST_OF_TWO { 1 } else { 0 };
    }
    if are_control(byte, bytes[at + 1]) {
        2
    } else {
        0
    }
}

/// Whether the byte is a control byte.
fn is_control(byte: u8) -> bool
    ensures { result ≡ is_control byte }
{
    byte < 32 || byte == 127
}

/// Whether the bytes are the two of a control character.
fn are_control(first: u8, second: u8) -> bool
    ensures { result ≡ are_control first second }
{
    first == FIRST_OF_TWO && 127 < second && second < 160
}
