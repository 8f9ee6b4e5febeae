//! A law of servings, the contract of a function without a body.

ghost use Rattle.std.specs.Prelude.{◌≡◌, ℕ, List};
ghost use Rattle.serving.specs.Consoles.{serving_of};
ghost use Rattle.serving.specs.Folders.{File};
ghost use Rattle.runs.specs.Run.{stream_of};
ghost use Rattle.serving.specs.Servings.{AskForNoExplanation, BytesBefore, HaveOwnText, IsServed};
ghost use Rattle.console.specs.declared.streams.Console.{Console as ConsoleData};
ghost use Rattle.console.specs.declared.streams.Terminals.{Terminals as TerminalsData};
ghost use Rattle.serving.specs.declared.serving.Words.{Words as WordsData};

use board_text::{Sink, Source};

/// Two servings of the same words, over the same files and over streams with the same bytes, give
/// one exit status, and the same bytes on standard output and standard error unless the text is
/// one that `clap` makes, or, on standard error, the words ask for explanations. The files and the
/// bytes are known, standard error is no terminal, no stream fails, and neither memory nor a worker
/// is refused.
pub fn one_serving<I: Source, O: Sink, E: Sink>()
    ensures { (at : List ℕ → File) → (terminals : TerminalsData) → (before : BytesBefore)
        → (words : WordsData) → (old : ConsoleData I O E) → (new : ConsoleData I O E)
        → (other_old : ConsoleData I O E) → (other_new : ConsoleData I O E)
        → (status : ℕ) → (other : ℕ)
        → IsServed at terminals before words
        (serving_of (stream_of I.remaining I.has_failed old.input new.input)
        (stream_of O.contents O.has_failed old.output new.output)
        (stream_of E.contents E.has_failed old.errors new.errors) status)
        → IsServed at terminals before words
        (serving_of (stream_of I.remaining I.has_failed other_old.input other_new.input)
        (stream_of O.contents O.has_failed other_old.output other_new.output)
        (stream_of E.contents E.has_failed other_old.errors other_new.errors) other)
        → (status ≡ other) × (HaveOwnText words
        → (O.contents new.output ≡ O.contents other_new.output)
        × (AskForNoExplanation words → E.contents new.errors ≡ E.contents other_new.errors)) }
{}
