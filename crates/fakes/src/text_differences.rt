//! Where a text differs from the one that is wanted, for a person who reads why a test failed.

ghost use Rattle.std.specs.Prelude.{◌≡◌, ◌↔◌, None};

use std::fmt;

/// The number of bytes that are shown before the first that differs, and from it on.
const SHOWN: usize = 12;

/// A text that was found, and the one that is wanted, which differ.
#[derive(Clone, Copy)]
pub struct TextDifference<'a> {
    found: &'a [u8],
    wanted: &'a [u8],
    /// The number of bytes before the first that differs.
    same: usize,
}

impl<'a> TextDifference<'a> {
    /// The difference of two texts, and none if they are the same.
    pub fn of(found: &'a [u8], wanted: &'a [u8]) -> Option<TextDifference<'a>>
        ensures { (result ≡ None) ↔ (found.now ≡ wanted.now) }
    {
        if found == wanted {
            return None;
        }
        let same = found
            .iter()
            .zip(wanted)
            .take_while(|(byte, other)| byte == other)
            .count();
        Some(TextDifference {
            found,
            wanted,
            same,
        })
    }

    /// The number of the line in which they differ first.
    fn line(&self) -> usize {
        let before = self.found.get(..self.same).unwrap_or(self.found);
        let ends = before.iter().filter(|byte| **byte == b'\n').count();
        ends.saturating_add(1)
    }

    /// The bytes of one of the two texts where they differ first.
    fn around(&self, text: &'a [u8]) -> &'a [u8] {
        let first = self.same.saturating_sub(SHOWN);
        let end = self.same.saturating_add(SHOWN).min(text.len());
        text.get(first..end).unwrap_or(text)
    }
}

impl fmt::Display for TextDifference<'_> {
    fn fmt<W: fmt::Write>(&self, f: &mut fmt::Formatter<W>) -> fmt::Result {
        write!(
            f,
            "{} bytes were found and {} wanted; they differ in line {}, after {} bytes\n  \
                found: \"{}\"\n wanted: \"{}\"",
            self.found.len(),
            self.wanted.len(),
            self.line(),
            self.same,
            self.around(self.found).escape_ascii(),
            self.around(self.wanted).escape_ascii(),
        )
    }
}
