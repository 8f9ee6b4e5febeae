//! The word of a configuration.

ghost use Rattle.std.specs.Prelude.{◌≡◌};
ghost use Rattle.solver.specs.Words.{value_of_word};

use gap_values::OPEN;

/// The value that `word` stands for, unless it is `OPEN`.
pub fn value_of(word: u32) -> Option<u32>
    ensures { result ≡ value_of_word word }
{
    if word == OPEN { None } else { Some(word) }
}
