//! The words that explain wrong use, by the words of the command line.

ghost use Rattle.std.specs.Prelude.{◌<◌, length};

use board_text::line_reader::LineReader;
use command_line::MAX_WORKERS;

// The words say this limit.
const _: () = prove!(MAX_WORKERS == 16);

/// The option for workers, with its number in the same word.
const WORKERS_IS: &str = "--workers=";

/// The option for the greatest length of chains, with its number in the same word.
const MOST_IS: &str = "--most=";

/// The option for a side, with the side in the same word.
const SIDE_IS: &str = "--side=";

/// The option for symmetries, with their path in the same word.
const SYMMETRIES_IS: &str = "--symmetries=";

/// Why these words, the program's name first, may be wrong, if they show it.
pub(crate) fn usage_hint(words: &[&str]) -> &'static str {
    if words.len() > 1 && is_path(words[1]) {
        return "the name of a command comes before a path, as in `pebbles solve BOARD`; ";
    }
    for at in 1..words.len() {
        let word = words[at];
        if word == "--" {
            return "";
        }
        if lacks_count(words, at) {
            return "`--workers` comes with a number from 1 to 16, as in `--workers 4`; ";
        }
        if is_given_again(words, at) {
            return "`--workers` is given once, with a number from 1 to 16; ";
        }
        if is_version(word) {
            return "`--version` stands alone, as in `pebbles --version`; ";
        }
        if word == "--large" && !takes_large(words[1]) {
            return "only `solve`, `report`, `starts` and `play` have `--large`; ";
        }
        if is_for_workers(word) && !takes_workers(words[1]) {
            return "only `solve`, `report`, `starts` and `chains` have `--workers`; ";
        }
        if is_for_a_length(word) && words[1] != "chains" {
            return "only `chains` has `--most`; ";
        }
        if is_for_a_side(word) && words[1] != "solve" && words[1] != "play" {
            return "only `solve` and `play` have `--side`; ";
        }
        if is_for_symmetries(word) && !takes_large(words[1]) {
            return "only `solve`, `report`, `starts` and `play` have `--symmetries`; ";
        }
        if is_unknown_option(word) {
            return "the only options are `--workers` of `solve`, `report`, `starts` and `chains`, \
                `--most` of `chains`, `--side` of `solve` and `play`, `--large` and \
                `--symmetries` of `solve`, `report`, `starts` and `play`, `--explain`, `--help` \
                and `--version`; a path that begins with `-` comes after `--`; ";
        }
    }
    ""
}

/// Whether the command of this name has the options `--large` and `--symmetries`.
fn takes_large(command: &str) -> bool {
    command == "solve" || command == "report" || command == "starts" || command == "play"
}

/// Whether the command of this name has the option for workers.
fn takes_workers(command: &str) -> bool {
    command == "solve" || command == "report" || command == "starts" || command == "chains"
}

/// Whether a word is the option for workers.
fn is_for_workers(word: &str) -> bool {
    word == "--workers" || word.starts_with(WORKERS_IS)
}

/// Whether a word is the option for the greatest length of chains.
fn is_for_a_length(word: &str) -> bool {
    word == "--most" || word.starts_with(MOST_IS)
}

/// Whether a word is the option for a side.
fn is_for_a_side(word: &str) -> bool {
    word == "--side" || word.starts_with(SIDE_IS)
}

/// Whether a word is the option for symmetries.
fn is_for_symmetries(word: &str) -> bool {
    word == "--symmetries" || word.starts_with(SYMMETRIES_IS)
}

/// Whether the word at this place is the option for workers, and a word before it is too.
fn is_given_again(words: &[&str], at: usize) -> bool
    requires { at < length words.now }
{
    if !is_for_workers(words[at]) {
        return false;
    }
    for before in 1..at {
        if is_for_workers(words[before]) {
            return true;
        }
    }
    false
}

/// Whether the word at this place is the option for workers, and no number of them comes with it:
/// after `=`, or as the next word.
fn lacks_count(words: &[&str], at: usize) -> bool
    requires { at < length words.now }
{
    let word = words[at];
    if word.starts_with(WORKERS_IS) {
        return !is_count(&word.as_bytes()[WORKERS_IS.len()..]);
    }
    word == "--workers" && (at + 1 >= words.len() || !is_count(words[at + 1].as_bytes()))
}

/// Whether these bytes are a number of workers.
fn is_count(text: &[u8]) -> bool {
    let mut reader = LineReader::new(text);
    reader.number(1, MAX_WORKERS as u32).is_some() && reader.is_empty()
}

/// Whether a word can only be a path.
fn is_path(word: &str) -> bool {
    !word.starts_with("-") && (word.contains(".") || word.contains("/"))
}

/// Whether a word asks for the version.
fn is_version(word: &str) -> bool {
    word == "--version" || word == "-V"
}

/// Whether a word is an option that no command has.
fn is_unknown_option(word: &str) -> bool {
    let is_known = is_for_workers(word)
        || is_for_a_length(word)
        || is_for_a_side(word)
        || is_for_symmetries(word)
        || word == "--help"
        || word == "-h"
        || word == "--large"
        || word == "--explain";
    word.starts_with("-") && !is_known
}
