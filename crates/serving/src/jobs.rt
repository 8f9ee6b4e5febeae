//! Doing a job, with the files and the standard streams that it is given.

ghost use Rattle.std.specs.Prelude.{◌≡◌, ◌≢◌, ◌⊎◌, ℕ, List, false};
ghost use Rattle.runs.specs.declared.fault.RunFault.TheVariants.{Read};
ghost use Rattle.serving.specs.declared.outcome.Outcome.TheVariants.{Broken};
ghost use Rattle.board_text.specs.Ranges.{InRange};
ghost use Rattle.command_line.specs.Reading.{IsInRange};
ghost use Rattle.console.specs.Showing.{IsMore};
ghost use Rattle.runs.specs.Notices.{IsToldOfChains};
ghost use Rattle.runs.specs.PlayRun.{play_streams};
ghost use Rattle.runs.specs.Run.{bytes_of, stream_of};
ghost use Rattle.serving.specs.Consoles.{IsReady};
ghost use Rattle.serving.specs.Folders.{CanFail};
ghost use Rattle.serving.specs.Jobs.{ChecksFor, ChecksJoined, CountsChains};
ghost use Rattle.serving.specs.Jobs.{IsDone, TellsReads, TellsWrites, WritesBoth, WritesNested};
ghost use Rattle.serving.specs.Telling.{IsToldInJob, IsToldOfFiles, IsToldOfJoined};
ghost use Rattle.serving.specs.Telling.{OpensAndTells, joined_greeting, rows_line, rows_told};

use crate::ended::Ended;
use crate::files::{Files, INPUT_PATH};
use crate::folder::Folder;
use crate::outcome::Outcome;
use crate::plays::{climb, play, play_up_to};
use crate::value_texts::{ValueJob, ValueText};
use board_text::{MAX_PEBBLES, Sink, Source};
use chains::MAX_LENGTH;
use command_line::{BoardLimit, Job, MAX_WORKERS};
use console::{Console, Terminals, write_digits, write_line, write_more};
use explanations::{Inputs, Note, Origin};
use nested_cycles::MAX_BOARD_LEVELS;
use runs::{
    Chaining, JoinedRun, Playing, RunFault, Summary, Verdict, run_check, run_joined_with_text,
    run_nested,
};
use std::alloc::Global;
use std::sync::Wait;
use std::thread::Threads;

/// The greeting of a person who types a board and a document.
const JOINED_GREETING: &str = "type or paste a board and a strategy document, and Ctrl-D; \
    `pebbles --help` lists the commands";

/// Does the job, and says how it ended.
///
/// The first bytes of files are kept if faults are explained. A person who sees standard error is
/// told there of large boards, long walks and rows, and one who types too what can be typed.
/// With several workers it may wait for them.
pub(crate) fn carry_out<'a, F: Folder, I: Source, O: Sink, E: Sink>(
    rt: &(impl Threads + Wait + Sync),
    alloc: Global,
    job: &Job<'a>,
    files: &Files<'_, F>,
    console: &mut Console<I, O, E>,
) -> Ended<'a>
    requires numbers { IsInRange job.now }
    requires ready { IsReady I.has_failed I.has_ended O.has_failed console.old }
    ensures done { IsDone (F.at files.now.folder.now)
        (stream_of I.remaining I.has_failed console.old.input console.new.input)
        (stream_of O.contents O.has_failed console.old.output console.new.output) job.now
        result.outcome }
    ensures told { (told : List ℕ) × IsToldInJob (F.at files.now.folder.now) console.old.terminals
        (play_streams I.remaining console.old.input console.new.input
        O.contents console.old.output console.new.output) result.outcome job.now told
        × IsMore E.contents E.has_failed console.old.errors console.new.errors told }
{
    match *job {
        Job::Joined => check_joined(rt, alloc, files, console),
        Job::Check { board, proof } => check(rt, alloc, files, board, proof, console),
        Job::Nested { levels, pebbles } => {
            write_nested(alloc, levels, pebbles, &mut console.output)
        }
        Job::Solve {
            workers,
            side,
            limit,
            symmetries,
            board,
        } => {
            let job = ValueJob {
                text: ValueText::Document(side),
                workers,
                limit,
                symmetries,
                board,
            };
            job.carry_out(rt, alloc, files, console)
        }
        Job::Report {
            workers,
            limit,
            symmetries,
            board,
        } => {
            let job = ValueJob {
                text: ValueText::Summary(Summary::Report),
                workers,
                limit,
                symmetries,
                board,
            };
            job.carry_out(rt, alloc, files, console)
        }
        Job::Starts {
            workers,
            limit,
            symmetries,
            board,
        } => {
            let job = ValueJob {
                text: ValueText::Summary(Summary::Starts),
                workers,
                limit,
                symmetries,
                board,
            };
            job.carry_out(rt, alloc, files, console)
        }
        Job::Chains {
            workers,
            most,
            board,
        } => {
            let chaining = Chaining {
                workers,
                most,
                shows_lengths: console.terminals.errors,
            };
            chains(rt, alloc, chaining, files, board, console)
        }
        Job::Play {
            side,
            limit,
            symmetries,
            board,
        } => {
            let playing = Playing {
                side,
                limit,
                shows_size: console.terminals.errors,
                prompts: console.terminals.are_both(),
            };
            match symmetries {
                None => play(alloc, playing, files, board, console),
                Some(given) => play_up_to(rt, alloc, playing, files, board, given, console),
            }
        }
        Job::Climb { levels } => climb(alloc, levels, files, console),
    }
}

/// Greets a person who types a board and a document.
fn greet<E: Sink>(terminals: Terminals, errors: &mut E)
    ensures { IsMore E.contents E.has_failed errors.old errors.new (joined_greeting terminals) }
{
    if !terminals.are_both() {
        return;
    }
    write_line(errors, JOINED_GREETING);
}

/// Checks the document after a board on standard input.
fn check_joined<F: Folder, I: Source, O: Sink, E: Sink>(
    rt: &(impl Threads + Sync),
    alloc: Global,
    files: &Files<'_, F>,
    console: &mut Console<I, O, E>,
) -> Ended<'static>
    requires ready { IsReady I.has_failed I.has_ended O.has_failed console.old }
    ensures done { ChecksJoined
        (stream_of I.remaining I.has_failed console.old.input console.new.input)
        (stream_of O.contents O.has_failed console.old.output console.new.output) result.outcome }
    ensures writes { TellsWrites
        (stream_of O.contents O.has_failed console.old.output console.new.output) result.outcome }
    ensures reads { TellsReads
        (stream_of I.remaining I.has_failed console.old.input console.new.input) result.outcome }
    ensures told { (told : List ℕ) × IsToldOfJoined console.old.terminals
        (bytes_of I.remaining console.old.input console.new.input)
        (bytes_of O.contents console.old.output console.new.output) result.outcome told
        × IsMore E.contents E.has_failed console.old.errors console.new.errors told }
{
    greet(console.terminals, &mut console.errors);
    let JoinedRun { result, text } = run_joined_with_text(
        rt,
        alloc,
        &mut console.input,
        &mut console.output,
    );
    tell_rows(result, console.terminals.errors, &mut console.errors);
    let trouble = files.trouble_of(INPUT_PATH, &console.input);
    Ended {
        outcome: Outcome::of_check(result),
        note: Note::of_check(result, &Inputs::joined(text.as_slice(), trouble)),
    }
}

/// Says how many rows were checked, if the document was accepted and `shows` says that a person is
/// there.
fn tell_rows<E: Sink>(checked: Result<Verdict, RunFault>, shows: bool, errors: &mut E)
    ensures { IsMore E.contents E.has_failed errors.old errors.new (rows_told shows checked) }
{
    if let Ok(Verdict::Accepted { rows, .. }) = checked {
        if shows {
            write_rows(rows, errors);
        }
    }
}

/// Writes the line that says that this number of `rows` was checked.
fn write_rows<E: Sink>(rows: u64, errors: &mut E)
    ensures { IsMore E.contents E.has_failed errors.old errors.new (rows_line rows) }
{
    if rows == 1 {
        write_more(errors, "1 row was checked\n");
    } else {
        write_digits(errors, rows);
        write_more(errors, " rows were checked\n");
    }
}

/// Checks the document at a path for the board at another. Both are opened before one is read.
fn check<'a, F: Folder, I: Source, O: Sink, E: Sink>(
    rt: &(impl Threads + Sync),
    alloc: Global,
    files: &Files<'_, F>,
    board: &'a str,
    proof: &'a str,
    console: &mut Console<I, O, E>,
) -> Ended<'a>
    requires output_ready { O.has_failed console.old.output ≡ false }
    ensures kept { console.new.input ≡ console.old.input }
    ensures done { WritesBoth ChecksFor (F.at files.now.folder.now board.now)
        (F.at files.now.folder.now proof.now)
        (stream_of O.contents O.has_failed console.old.output console.new.output) result.outcome }
    ensures writes { TellsWrites
        (stream_of O.contents O.has_failed console.old.output console.new.output) result.outcome }
    ensures unread { result.outcome ≡ Broken Read
        → CanFail (F.at files.now.folder.now board.now)
        ⊎ CanFail (F.at files.now.folder.now proof.now) }
    ensures told { (told : List ℕ) × IsToldOfFiles console.old.terminals.errors
        (F.at files.now.folder.now board.now) (F.at files.now.folder.now proof.now)
        (bytes_of O.contents console.old.output console.new.output) result.outcome told
        × IsMore E.contents E.has_failed console.old.errors console.new.errors told }
{
    let Ok(mut reader) = files.open(alloc, board) else {
        return Ended::unopened(files, board);
    };
    let Ok(mut other) = files.open(alloc, proof) else {
        return Ended::unopened(files, proof);
    };
    let checked = run_check(rt, alloc, &mut reader, &mut other, &mut console.output);
    tell_rows(checked, console.terminals.errors, &mut console.errors);
    let trouble = files.trouble_of(board, &reader);
    let first = Origin::board(board, reader.text(), reader.count(), trouble);
    let trouble = files.trouble_of(proof, &other);
    let second = Origin::document(proof, other.text(), other.count(), trouble);
    Ended {
        outcome: Outcome::of_check(checked),
        note: Note::of_check(checked, &Inputs::apart(first, second)),
    }
}

/// Writes the text of a nested board.
fn write_nested<O: Sink>(alloc: Global, levels: u8, pebbles: u8, output: &mut O) -> Ended<'static>
    requires levels { InRange 1 MAX_BOARD_LEVELS levels }
    requires pebbles { InRange 1 MAX_PEBBLES pebbles }
    requires output_ready { O.has_failed output.old ≡ false }
    ensures done { WritesNested levels pebbles
        (stream_of O.contents O.has_failed output.old output.new) result.outcome }
    ensures writes { TellsWrites (stream_of O.contents O.has_failed output.old output.new)
        result.outcome }
    ensures unread { result.outcome ≢ Broken Read }
{
    let outcome = Outcome::of_run(run_nested(alloc, levels, pebbles, output));
    Ended::of(outcome, &Inputs::without_files(None))
}

/// Counts the chains of the board at a path.
fn chains<'a, F: Folder, I: Source, O: Sink, E: Sink>(
    rt: &(impl Threads + Sync),
    alloc: Global,
    chaining: Chaining,
    files: &Files<'_, F>,
    board: &'a str,
    console: &mut Console<I, O, E>,
) -> Ended<'a>
    requires workers { InRange 1 MAX_WORKERS chaining.workers }
    requires most { InRange 1 MAX_LENGTH chaining.most }
    requires output_ready { O.has_failed console.old.output ≡ false }
    ensures kept { console.new.input ≡ console.old.input }
    ensures done { CountsChains chaining.most (F.at files.now.folder.now board.now)
        (stream_of O.contents O.has_failed console.old.output console.new.output) result.outcome }
    ensures writes { TellsWrites
        (stream_of O.contents O.has_failed console.old.output console.new.output) result.outcome }
    ensures unread { result.outcome ≡ Broken Read → CanFail (F.at files.now.folder.now board.now) }
    ensures told { (told : List ℕ) × OpensAndTells {Answer = Unit {0}}
        (F.at files.now.folder.now board.now)
        (λ read. IsToldOfChains chaining.most read chaining.shows_lengths) result.outcome told
        × IsMore E.contents E.has_failed console.old.errors console.new.errors told }
{
    let Ok(mut reader) = files.open(alloc, board) else {
        return Ended::unopened(files, board);
    };
    let counted = chaining.run(
        rt,
        alloc,
        &mut reader,
        &mut console.output,
        &mut console.errors,
    );
    Ended::of_board(
        Outcome::of_run(counted),
        BoardLimit::Large,
        files,
        board,
        &reader,
    )
}
