//! A law of `clap`'s two tests of words, and the numbers that the help names.

ghost use Rattle.std.specs.Prelude.{◌≡◌, ◌↔◌, ◌⊎◌, List, [], true};
ghost use Rattle.clap.specs.Words.{Text, fault_of, takes};
ghost use Rattle.command_line.specs.Commands as commands;
ghost use Rattle.command_line.specs.Reading.{AsksForHelp, AsksForVersion, IsWrongUse};

use crate::asked::MAX_WORKERS;
use board_text::MAX_PEBBLES;
use chains::{MAX_CHAINS, MAX_LENGTH};
use gap_values::MAX_GAPS;
use nested_cycles::{MAX_BOARD_LEVELS, MAX_LEVELS};

/// The limits of numbers on the command line. The help names them in words: a limit that changes
/// here changes there.
pub fn limits()
    ensures workers { MAX_WORKERS ≡ 16 }
    ensures levels { MAX_BOARD_LEVELS ≡ 6 }
    ensures pebbles { MAX_PEBBLES ≡ 6 }
    ensures played_levels { MAX_LEVELS ≡ 24 }
    ensures gaps { MAX_GAPS ≡ 536870912 }
    ensures length { MAX_LENGTH ≡ 8 }
    ensures chains { MAX_CHAINS ≡ 68719476736 }
{}

/// `clap` finds no fault in words exactly if it takes them.
#[tactic(auto, using(crate::proofs::FaultsTaken::faults_or_taken))]
pub fn faultless_words_are_taken()
    ensures { (words : List Text) → (fault_of commands.program words ≡ [])
        ↔ (takes commands.program words ≡ true) }
{}

/// No words ask for two of help, the version and being told of wrong use.
pub fn words_ask_for_one_answer()
    ensures help { (words : List Text) → AsksForHelp words → AsksForVersion words → ⊥ }
    ensures misuse { (words : List Text) → AsksForHelp words ⊎ AsksForVersion words
        → IsWrongUse words → ⊥ }
{}
