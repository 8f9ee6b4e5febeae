//! The meaning of a person's line.

ghost use Rattle.std.specs.Prelude.{◌≡◌, ◌≢◌, ℕ, ◌<◌, ◌^◌, MatchOption};
ghost use Rattle.std.specs.Fmt.{decimal};
ghost use Rattle.player.specs.Inside.Words.{Spells};
ghost use Rattle.player.specs.Prompts.{has_blank as has_blank_of};

use board_text::line_reader::LineReader;

/// The line that ends a play.
const QUIT: &[u8] = b"quit";

/// The meaning of a line.
#[derive(Clone, Copy, Debug, PartialEq, Eq)]
pub(crate) enum LineMeaning {
    /// A number below 2^32, without a sign or a leading zero.
    Number(u32),
    /// The play shall end.
    Quit,
    /// Anything else, which may have a space or a tab.
    Other { has_blank: bool },
}

impl LineMeaning {
    /// The meaning of `line`.
    pub(crate) fn of(line: &[u8]) -> LineMeaning
        ensures { Spells line.now result }
    {
        if line == QUIT {
            return LineMeaning::Quit;
        }
        match whole_number(line) {
            Some(number) => LineMeaning::Number(number),
            None => LineMeaning::Other {
                has_blank: has_blank(line),
            },
        }
    }
}

/// Whether a space or a tab is in `line`.
fn has_blank(line: &[u8]) -> bool
    ensures { result ≡ has_blank_of line.now }
{
    line.iter().any(|byte| *byte == b' ' || *byte == b'\t')
}

/// The number that the whole of `line` spells, if it spells one below 2^32.
fn whole_number(line: &[u8]) -> Option<u32>
    ensures { MatchOption result ((number : ℕ) → number < 2 ^ 32 → line.now ≢ decimal number)
        (λ number. line.now ≡ decimal number) }
{
    let mut text = LineReader::new(line);
    let number = text.number(0, u32::MAX)?;
    if text.is_empty() { Some(number) } else { None }
}
