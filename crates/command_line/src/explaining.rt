//! The word `--explain`, which a command takes, and which also stands before a command or alone.

ghost use Rattle.std.specs.Prelude.{◌≡◌};
ghost use Rattle.clap.specs.Walk.{texts};
ghost use Rattle.command_line.specs.Explaining.{asks_to_explain, words_of_job};

/// The word after which faults are explained.
const EXPLAIN: &str = "--explain";

/// Whether `words`, the program's name first, have the word `--explain`. After `--` it is a path.
pub fn asks_to_explain(words: &[&str]) -> bool
    ensures { result ≡ asks_to_explain (texts words.now) }
{
    for at in 1..words.len() {
        let word = words[at];
        if word == EXPLAIN {
            return true;
        }
        if word == "--" {
            return false;
        }
    }
    false
}

/// The part of `words`, the program's name first, that `job` reads: if `--explain` comes before
/// the command, the words from it on.
pub fn words_of_job<'a, 'w>(words: &'a [&'w str]) -> &'a [&'w str]
    ensures { texts result.now ≡ words_of_job (texts words.now) }
{
    if words.len() >= 2 && words[1] == EXPLAIN {
        &words[1..]
    } else {
        words
    }
}
