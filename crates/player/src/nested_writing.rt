//! The lines that a play on a nested board writes.

ghost use Rattle.std.specs.Prelude.{◌≡◌, ◌++◌, ◌≤◌, OnOk, string_bytes, codes};
ghost use Rattle.std.specs.Fmt.{decimal};
ghost use Rattle.std.specs.List.{flat_map};
ghost use Rattle.board_text.specs.LineForms.{number_line};
ghost use Rattle.board_text.specs.Ranges.{InRange};
ghost use Rattle.nested_cycles.specs.Words.{word_of};
ghost use Rattle.player.specs.Transcript.{takes_line, word_text, words_line};

use nested_cycles::MAX_LEVELS;
use std::alloc::AllocError;
use std::fmt::Write;

/// Appends the level `levels`, and the `words` of the pebbles.
pub(crate) fn write_levels(text: &mut String, levels: u8, words: &[u64]) -> Result<(), AllocError>
    requires { InRange 1 MAX_LEVELS levels }
    ensures { OnOk result (string_bytes text.new ≡ string_bytes text.old
        ++ (number_line (codes "levels") levels ++ words_line levels words.now)) }
{
    write!(text, "levels {levels}\n")?;
    write_words(text, levels, words)
}

/// Appends the `word` that `pebble` takes, and the `words` of the pebbles after that answer.
pub(crate) fn write_nested_reply(
    text: &mut String,
    levels: u8,
    pebble: u8,
    word: u64,
    words: &[u64],
) -> Result<(), AllocError>
    requires { InRange 1 MAX_LEVELS levels }
    ensures { OnOk result (string_bytes text.new ≡ string_bytes text.old
        ++ (takes_line pebble (word_text levels word) ++ words_line levels words.now)) }
{
    write!(text, "pebble {pebble} takes ")?;
    write_word(text, levels, word)?;
    text.push_str("\n")?;
    write_words(text, levels, words)
}

/// Appends the `words` of the pebbles.
fn write_words(text: &mut String, levels: u8, words: &[u64]) -> Result<(), AllocError>
    requires { InRange 1 MAX_LEVELS levels }
    ensures { OnOk result (string_bytes text.new ≡ string_bytes text.old
        ++ words_line levels words.now) }
{
    text.push_str("at")?;
    for word in words {
        text.push_str(" ")?;
        write_word(text, levels, *word)?;
    }
    text.push_str("\n")
}

/// Appends the digits of `word`, or a dot for the word without digits.
fn write_word(text: &mut String, levels: u8, word: u64) -> Result<(), AllocError>
    requires { InRange 1 MAX_LEVELS levels }
    ensures { OnOk result (string_bytes text.new ≡ string_bytes text.old ++ word_text levels word) }
{
    if levels == 1 {
        return text.push_str(".");
    }
    write_digits(text, levels - 1, word)
}

/// Appends the word of `count` ternary digits that has the number `number`.
fn write_digits(text: &mut String, count: u8, number: u64) -> Result<(), AllocError>
    requires { count ≤ 23 }
    ensures { OnOk result (string_bytes text.new ≡ string_bytes text.old
        ++ flat_map decimal (word_of count number)) }
{
    if count == 0 {
        return Ok(());
    }
    let size = 3_u64.pow(u32::from(count) - 1);
    write!(text, "{}", number / size)?;
    write_digits(text, count - 1, number % size)
}
