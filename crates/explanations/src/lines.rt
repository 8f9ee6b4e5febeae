//! The lines of a text that explain a fault of it.

ghost use Rattle.std.specs.Prelude.{◌≤◌, length};

use board_text::line_reader::LineReader;

/// The lines of a text from the one with this number, counted from 1.
pub(crate) fn from_line(text: &[u8], number: u32) -> &[u8] {
    let mut rest = text;
    for _ in 1..number {
        rest = split_line(rest).1;
    }
    rest
}

/// The first line, with its line feed if it has one, and the lines after it.
pub(crate) fn split_line(text: &[u8]) -> (&[u8], &[u8]) {
    text.split_at(line_length(text))
}

/// The number of bytes of the first line, with its line feed if it has one.
fn line_length(text: &[u8]) -> usize
    ensures { result ≤ length text.now }
{
    for at in 0..text.len() {
        if text[at] == b'\n' {
            return at + 1;
        }
    }
    text.len()
}

/// The mistake of a line that no form has, if there is one.
pub(crate) fn flaw(line: &[u8]) -> Option<&'static str> {
    if line.is_empty() {
        Some("the text ends before this line")
    } else if line.starts_with("\n".as_bytes()) {
        Some("the line is empty")
    } else if line.contains(&b'\r') {
        Some("a carriage return is in the line, as on Windows, and `sed 's/\\r$//'` takes it away")
    } else if line.contains(&b'\t') {
        Some("a tab is in the line")
    } else if line.starts_with(" ".as_bytes()) {
        Some("a space is at the start of the line")
    } else if line.ends_with(" \n".as_bytes()) {
        Some("a space is at the end of the line")
    } else if has_two_spaces(line) {
        Some("two spaces are side by side in the line")
    } else if !line.ends_with("\n".as_bytes()) {
        Some("the line has no line feed at its end")
    } else {
        None
    }
}

/// Whether two spaces are side by side.
fn has_two_spaces(line: &[u8]) -> bool {
    for at in 1..line.len() {
        if line[at] == b' ' && line[at - 1] == b' ' {
            return true;
        }
    }
    false
}

/// Whether a number of the line has a leading zero.
pub(crate) fn has_leading_zero(line: &[u8]) -> bool {
    for at in 1..line.len() {
        if line[at - 1] == b'0' && line[at].is_ascii_digit() && (at == 1 || line[at - 2] == b' ') {
            return true;
        }
    }
    false
}

/// Whether a number of the line has a `-` before it.
pub(crate) fn has_sign(line: &[u8]) -> bool {
    for at in 1..line.len() {
        if line[at - 1] == b'-' && line[at].is_ascii_digit() {
            return true;
        }
    }
    false
}

/// The number of spaces before `end`, if that is in the line.
pub(crate) fn spaces_before(line: &[u8], end: &[u8]) -> Option<u64> {
    let mut count: u64 = 0;
    for at in 0..line.len() {
        if line[at..].starts_with(end) {
            return Some(count);
        }
        if line[at] == b' ' {
            count = count.saturating_add(1);
        }
    }
    None
}

/// The number in a line of `word` and one number.
pub(crate) fn number_in(line: &[u8], word: &str) -> Option<u32> {
    LineReader::new(line).number_line(word.as_bytes(), 0, u32::MAX)
}

/// The two labels of a line `beats X Y`, however large they are.
pub(crate) fn pair_in(line: &[u8]) -> Option<(u16, u16)> {
    let mut labels: [u16; 2] = [0; 2];
    LineReader::new(line).numbers_line("beats".as_bytes(), labels.as_mut_slice(), u16::MAX)?;
    Some((labels[0], labels[1]))
}

/// The number of the first line before line `last` that has this pair.
pub(crate) fn line_with(text: &[u8], last: u32, pair: (u16, u16)) -> Option<u32> {
    let mut rest = text;
    for number in 1..last {
        let (line, later) = split_line(rest);
        if pair_in(line) == Some(pair) {
            return Some(number);
        }
        rest = later;
    }
    None
}

/// The number of the first line before line `last` that has a greater pair.
pub(crate) fn line_above(text: &[u8], last: u32, pair: (u16, u16)) -> Option<u32> {
    let mut rest = text;
    for number in 1..last {
        let (line, later) = split_line(rest);
        if let Some(found) = pair_in(line) {
            if found > pair {
                return Some(number);
            }
        }
        rest = later;
    }
    None
}
