//! The program, from its words to its exit status.

ghost use Rattle.std.specs.Prelude.{◌≡◌, ℕ, List, false};
ghost use Rattle.clap.specs.Walk.{texts};
ghost use Rattle.console.specs.Showing.{IsMore};
ghost use Rattle.runs.specs.Run.{stream_of};
ghost use Rattle.serving.specs.Consoles.{IsReady, serving_of};
ghost use Rattle.serving.specs.Serving.{IsEnding, IsExplained, ServesAnyWords, ServesJob};
ghost use Rattle.serving.specs.Serving.{ServesWords, is_typed, lacks_input};
ghost use Rattle.command_line.specs.Reading.{IsInRange};
ghost use Rattle.runs.specs.declared.fault.RunFault.TheVariants.{Memory};
ghost use Rattle.serving.specs.declared.outcome.Outcome.TheVariants.{Broken};
ghost use Rattle.serving.specs.Outcomes.{status_of};

use crate::fault_lines::fault_line;
use crate::files::Files;
use crate::folder::Folder;
use crate::jobs::carry_out;
use crate::outcome::Outcome;
use board_text::{Sink, Source};
use command_line::{Job, JobFault, job, words_of_job};
use console::{Console, Terminals, write_more};
use explanations::{Inputs, Note, write_note};
use runs::{RunFault, write_text};
use std::alloc::Global;
use std::sync::Wait;
use std::thread::Threads;

/// The text for a word that isn't text.
const NOT_TEXT: &str = "error: a word on the command line is not text\n";

/// The words of a command line, the program's name first, or why there are none.
#[derive(Clone, Copy, Debug)]
pub enum Words<'a, 'w> {
    Given(&'a [&'w str]),
    /// A word isn't text.
    NotText,
    /// Memory for them was refused.
    OutOfMemory,
}

/// Whether `job` reads standard input, and that is closed.
fn lacks_input(terminals: Terminals, job: &Job<'_>) -> bool
    ensures { result ≡ lacks_input terminals job.now }
{
    terminals.input_closed && is_typed(job)
}

/// Whether `job` reads standard input.
fn is_typed(job: &Job<'_>) -> bool
    ensures { result ≡ is_typed job.now }
{
    matches!(job, Job::Joined | Job::Play { .. } | Job::Climb { .. })
}

/// Does the job that `words` ask for, and gives the exit status.
///
/// Paths are opened in the folder. Results, transcripts and help go to the output, fault lines and
/// usage texts to standard error, and if that is a terminal, or `--explain` is among the words, an
/// explanation after each. If it is a terminal, a person is told there that a large board is
/// solved, and if the input is one too, what can be typed.
/// A job that reads standard input isn't begun if that is closed, which is a read fault.
/// The streams must not have failed before. With several workers it may wait for them.
pub fn serve<F: Folder, I: Source, O: Sink, E: Sink>(
    rt: &(impl Threads + Wait + Sync),
    alloc: Global,
    words: &Words<'_, '_>,
    folder: &F,
    console: &mut Console<I, O, E>,
) -> u8
    requires ready { IsReady I.has_failed I.has_ended O.has_failed console.old }
    requires errors_ready { E.has_failed console.old.errors ≡ false }
    ensures { ServesAnyWords (F.at folder.now) console.old.terminals
        (serving_of (stream_of I.remaining I.has_failed console.old.input console.new.input)
        (stream_of O.contents O.has_failed console.old.output console.new.output)
        (stream_of E.contents E.has_failed console.old.errors console.new.errors) result)
        words.now }
{
    let at_terminal = console.terminals.errors;
    match *words {
        Words::Given(words) => {
            let files = Files::of(folder, console.terminals, words);
            serve_words(rt, alloc, words_of_job(words), &files, console)
        }
        Words::NotText => refuse(NOT_TEXT, &Note::no_text(), at_terminal, &mut console.errors),
        Words::OutOfMemory => tell_no_memory(at_terminal, &mut console.errors),
    }
}

/// Does the job that these `words` ask for, and gives the exit status.
fn serve_words<F: Folder, I: Source, O: Sink, E: Sink>(
    rt: &(impl Threads + Wait + Sync),
    alloc: Global,
    words: &[&str],
    files: &Files<'_, F>,
    console: &mut Console<I, O, E>,
) -> u8
    requires ready { IsReady I.has_failed I.has_ended O.has_failed console.old }
    requires errors_ready { E.has_failed console.old.errors ≡ false }
    ensures { ServesWords (F.at files.now.folder.now) console.old.terminals files.now.explains
        (serving_of (stream_of I.remaining I.has_failed console.old.input console.new.input)
        (stream_of O.contents O.has_failed console.old.output console.new.output)
        (stream_of E.contents E.has_failed console.old.errors console.new.errors) result)
        (texts words.now) }
{
    match job(alloc, words) {
        Ok(job) => serve_job(rt, alloc, &job, files, console),
        Err(JobFault::Help { text }) => {
            let outcome = Outcome::of_run(write_text(&mut console.output, &text));
            tell_of_words(outcome, files.explains, &mut console.errors)
        }
        Err(JobFault::Usage { text }) => {
            let note = Note::of_words(words);
            refuse(&text, &note, files.explains, &mut console.errors)
        }
        Err(JobFault::Memory) => tell_no_memory(files.explains, &mut console.errors),
    }
}

/// Does the job, unless it lacks its input, and gives the exit status.
fn serve_job<F: Folder, I: Source, O: Sink, E: Sink>(
    rt: &(impl Threads + Wait + Sync),
    alloc: Global,
    job: &Job<'_>,
    files: &Files<'_, F>,
    console: &mut Console<I, O, E>,
) -> u8
    requires numbers { IsInRange job.now }
    requires ready { IsReady I.has_failed I.has_ended O.has_failed console.old }
    requires errors_ready { E.has_failed console.old.errors ≡ false }
    ensures { ServesJob (F.at files.now.folder.now) console.old.terminals files.now.explains
        (serving_of (stream_of I.remaining I.has_failed console.old.input console.new.input)
        (stream_of O.contents O.has_failed console.old.output console.new.output)
        (stream_of E.contents E.has_failed console.old.errors console.new.errors) result)
        job.now }
{
    if lacks_input(console.terminals, job) {
        let closed = Outcome::Broken(RunFault::Read);
        return tell(
            closed,
            &Note::no_input(),
            files.explains,
            &mut console.errors,
        );
    }
    let ended = carry_out(rt, alloc, job, files, console);
    tell(
        ended.outcome,
        &ended.note,
        files.explains,
        &mut console.errors,
    )
}

/// Says that memory to read the words in was refused, and gives the exit status.
fn tell_no_memory<E: Sink>(explains: bool, errors: &mut E) -> u8
    ensures told { (said : List ℕ) × IsEnding explains (Broken Memory) said
        × IsMore E.contents E.has_failed errors.old errors.new said }
    ensures status { result ≡ status_of (Broken Memory) }
{
    tell_of_words(Outcome::Broken(RunFault::Memory), explains, errors)
}

/// Says on standard error how words that ask for no job were answered, and gives the exit status.
fn tell_of_words<E: Sink>(outcome: Outcome, explains: bool, errors: &mut E) -> u8
    ensures told { (said : List ℕ) × IsEnding explains outcome said
        × IsMore E.contents E.has_failed errors.old errors.new said }
    ensures status { result ≡ status_of outcome }
{
    let note = outcome.note(&Inputs::without_files(None));
    tell(outcome, &note, explains, errors)
}

/// Says on standard error how a job was broken off, if it was, and gives the exit status.
fn tell<E: Sink>(outcome: Outcome, note: &Note<'_>, explains: bool, errors: &mut E) -> u8
    ensures told { (said : List ℕ) × IsEnding explains outcome said
        × IsMore E.contents E.has_failed errors.old errors.new said }
    ensures status { result ≡ status_of outcome }
{
    write_ending(outcome, note, explains, errors);
    outcome.status()
}

/// Writes the line of the fault that broke a job off, and explains it or a refusal.
fn write_ending<E: Sink>(outcome: Outcome, note: &Note<'_>, explains: bool, errors: &mut E)
    ensures { (said : List ℕ) × IsEnding explains outcome said
        × IsMore E.contents E.has_failed errors.old errors.new said }
{
    match outcome {
        Outcome::Done => {}
        Outcome::Refused => say("", note, explains, errors),
        Outcome::Broken(fault) => {
            let line = fault_line(fault);
            say(line.as_str(), note, explains, errors);
        }
    }
}

/// Writes a text, and its explanation if faults are explained.
fn say<E: Sink>(text: &str, note: &Note<'_>, explains: bool, errors: &mut E)
    ensures { (said : List ℕ) × IsExplained explains text.now said
        × IsMore E.contents E.has_failed errors.old errors.new said }
{
    write_more(errors, text);
    if !explains {
        return;
    }
    write_note(note, errors);
}

/// Writes a text that says that the use was wrong, and gives the exit status.
fn refuse<E: Sink>(text: &str, note: &Note<'_>, explains: bool, errors: &mut E) -> u8
    ensures said { (said : List ℕ) × IsExplained explains text.now said
        × IsMore E.contents E.has_failed errors.old errors.new said }
    ensures status { result ≡ 2 }
{
    say(text, note, explains, errors);
    2
}
