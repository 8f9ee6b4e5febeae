//! Jobs that write a text of the values of a board.

ghost use Rattle.std.specs.Prelude.{◌≡◌, ◌⊎◌, ℕ, List, false, true};
ghost use Rattle.runs.specs.declared.fault.RunFault.TheVariants.{Read};
ghost use Rattle.serving.specs.declared.outcome.Outcome.TheVariants.{Broken};
ghost use Rattle.board_text.specs.Ranges.{InRange};
ghost use Rattle.console.specs.Showing.{IsMore};
ghost use Rattle.runs.specs.BoardRun.{readers_by};
ghost use Rattle.runs.specs.Notices.{IsToldInRun, nothing_after};
ghost use Rattle.runs.specs.Run.{bytes_of, stream_of};
ghost use Rattle.serving.specs.Folders.{CanFail};
ghost use Rattle.serving.specs.Jobs.{CanFailAt, TellsReads, TellsWrites, WritesAlone, WritesBoth};
ghost use Rattle.serving.specs.Jobs.{WritesValues, WritesValuesFor, WritesValuesUpTo, WritesWhole};
ghost use Rattle.serving.specs.Telling.{AnswerOf, IsToldOfValues, OpensAndTells, TellsOfRun};

use crate::ended::Ended;
use crate::files::Files;
use crate::folder::Folder;
use crate::outcome::Outcome;
use board_text::{Sink, Source};
use command_line::{BoardLimit, MAX_WORKERS};
use console::Console;
use positions::Side;
use runs::{Summary, Work};
use std::alloc::Global;
use std::sync::Wait;
use std::thread::Threads;

/// What is written of the values of a board.
#[derive(Clone, Copy)]
pub(crate) enum ValueText {
    /// Its strategy document, for this side alone or for both.
    Document(Option<Side>),
    Summary(Summary),
}

impl ValueText {
    /// Writes the text of the board that `reader` gives, and gives the outcome. A person is told on
    /// `errors` what is to be told.
    fn write<R: Source, O: Sink, E: Sink>(
        self,
        rt: &(impl Threads + Wait + Sync),
        alloc: Global,
        work: Work,
        reader: &mut R,
        output: &mut O,
        errors: &mut E,
    ) -> Outcome
        requires workers { InRange 1 MAX_WORKERS work.workers }
        requires reader_ready { R.has_failed reader.old ≡ false }
        requires reader_unended { R.has_ended reader.old ≡ false }
        requires output_ready { O.has_failed output.old ≡ false }
        ensures done { WritesValuesFor self work.workers work.limit
            (bytes_of R.remaining reader.old reader.new)
            (stream_of O.contents O.has_failed output.old output.new) result }
        ensures whole { WritesWhole (stream_of O.contents O.has_failed output.old output.new)
            result }
        ensures writes { TellsWrites (stream_of O.contents O.has_failed output.old output.new)
            result }
        ensures reads { TellsReads (stream_of R.remaining R.has_failed reader.old reader.new)
            result }
        ensures told { (told : List ℕ) × TellsOfRun {Answer = AnswerOf self}
            (IsToldInRun work.limit (bytes_of R.remaining reader.old reader.new)
            work.shows_size nothing_after) result told
            × IsMore E.contents E.has_failed errors.old errors.new told }
    {
        match self {
            ValueText::Document(side) => {
                Outcome::of_run(work.solve(rt, alloc, side, reader, output, errors))
            }
            ValueText::Summary(summary) => {
                Outcome::of_run(work.summarize(rt, alloc, summary, reader, output, errors))
            }
        }
    }

    /// Writes the text of the board that one reader gives, with values up to the symmetries that
    /// the other gives, and gives the outcome.
    fn write_up_to<B: Source, S: Source, O: Sink>(
        self,
        rt: &(impl Threads + Sync),
        alloc: Global,
        work: Work,
        board: &mut B,
        symmetries: &mut S,
        output: &mut O,
    ) -> Outcome
        requires workers { InRange 1 MAX_WORKERS work.workers }
        requires board_ready { B.has_failed board.old ≡ false }
        requires board_unended { B.has_ended board.old ≡ false }
        requires symmetries_ready { S.has_failed symmetries.old ≡ false }
        requires symmetries_unended { S.has_ended symmetries.old ≡ false }
        requires output_ready { O.has_failed output.old ≡ false }
        ensures done { WritesValuesUpTo self work.limit
            (readers_by (bytes_of B.remaining board.old board.new)
            (bytes_of S.remaining symmetries.old symmetries.new))
            (stream_of O.contents O.has_failed output.old output.new) result }
        ensures whole { WritesWhole (stream_of O.contents O.has_failed output.old output.new)
            result }
        ensures writes { TellsWrites (stream_of O.contents O.has_failed output.old output.new)
            result }
        ensures unread { result ≡ Broken Read → (B.has_failed board.new ≡ true)
            ⊎ (S.has_failed symmetries.new ≡ true) }
    {
        match self {
            ValueText::Document(side) => Outcome::of_run(work.solve_up_to_symmetries(
                rt, alloc, side, board, symmetries, output,
            )),
            ValueText::Summary(summary) => Outcome::of_run(work.summarize_up_to_symmetries(
                rt, alloc, summary, board, symmetries, output,
            )),
        }
    }
}

/// A job that writes a text of the values of a board.
#[derive(Clone, Copy)]
pub(crate) struct ValueJob<'a> {
    pub(crate) text: ValueText,
    /// The number of workers, 1 to `MAX_WORKERS`.
    pub(crate) workers: u8,
    /// How large the board may be.
    pub(crate) limit: BoardLimit,
    /// The path of symmetries of its domain, up to which values are found, if there is one.
    pub(crate) symmetries: Option<&'a str>,
    /// The path of the board.
    pub(crate) board: &'a str,
}

impl<'a> ValueJob<'a> {
    /// Does the job, and says how it ended. A person who sees standard error is told there of a
    /// large board, unless values are found up to symmetries. With several workers it may wait for
    /// them.
    pub(crate) fn carry_out<F: Folder, I: Source, O: Sink, E: Sink>(
        &self,
        rt: &(impl Threads + Wait + Sync),
        alloc: Global,
        files: &Files<'_, F>,
        console: &mut Console<I, O, E>,
    ) -> Ended<'a>
        requires workers { InRange 1 MAX_WORKERS self.now.workers }
        requires output_ready { O.has_failed console.old.output ≡ false }
        ensures kept { console.new.input ≡ console.old.input }
        ensures done { WritesValues (F.at files.now.folder.now) self.now.text self.now.workers
            self.now.limit self.now.symmetries self.now.board
            (stream_of O.contents O.has_failed console.old.output console.new.output)
            result.outcome }
        ensures writes { TellsWrites
            (stream_of O.contents O.has_failed console.old.output console.new.output)
            result.outcome }
        ensures unread { result.outcome ≡ Broken Read
            → CanFailAt (F.at files.now.folder.now) self.now.board self.now.symmetries }
        ensures told { (told : List ℕ) × IsToldOfValues (F.at files.now.folder.now)
            console.old.terminals.errors self.now.text self.now.limit self.now.symmetries
            self.now.board result.outcome told
            × IsMore E.contents E.has_failed console.old.errors console.new.errors told }
    {
        let work = Work {
            workers: self.workers,
            limit: self.limit,
            shows_size: console.terminals.errors,
        };
        match self.symmetries {
            None => self.write(rt, alloc, work, files, console),
            Some(given) => self.write_up_to(rt, alloc, work, files, given, &mut console.output),
        }
    }

    /// Writes the text of the board alone.
    fn write<F: Folder, I: Source, O: Sink, E: Sink>(
        &self,
        rt: &(impl Threads + Wait + Sync),
        alloc: Global,
        work: Work,
        files: &Files<'_, F>,
        console: &mut Console<I, O, E>,
    ) -> Ended<'a>
        requires workers { InRange 1 MAX_WORKERS work.workers }
        requires output_ready { O.has_failed console.old.output ≡ false }
        ensures kept { console.new.input ≡ console.old.input }
        ensures done { WritesAlone (WritesValuesFor self.now.text work.workers work.limit)
            (F.at files.now.folder.now self.now.board.now)
            (stream_of O.contents O.has_failed console.old.output console.new.output)
            result.outcome }
        ensures writes { TellsWrites
            (stream_of O.contents O.has_failed console.old.output console.new.output)
            result.outcome }
        ensures unread { result.outcome ≡ Broken Read
            → CanFail (F.at files.now.folder.now self.now.board.now) }
        ensures told { (told : List ℕ) × OpensAndTells {Answer = AnswerOf self.now.text}
            (F.at files.now.folder.now self.now.board.now)
            (λ read. IsToldInRun work.limit read work.shows_size nothing_after)
            result.outcome told
            × IsMore E.contents E.has_failed console.old.errors console.new.errors told }
    {
        let Ok(mut reader) = files.open(alloc, self.board) else {
            return Ended::unopened(files, self.board);
        };
        let outcome = self.text.write(
            rt,
            alloc,
            work,
            &mut reader,
            &mut console.output,
            &mut console.errors,
        );
        Ended::of_board(outcome, work.limit, files, self.board, &reader)
    }

    /// Writes the text of the board with values up to the `symmetries` at a path. Both files are
    /// opened before one is read.
    fn write_up_to<F: Folder, O: Sink>(
        &self,
        rt: &(impl Threads + Sync),
        alloc: Global,
        work: Work,
        files: &Files<'_, F>,
        symmetries: &'a str,
        output: &mut O,
    ) -> Ended<'a>
        requires workers { InRange 1 MAX_WORKERS work.workers }
        requires output_ready { O.has_failed output.old ≡ false }
        ensures done { WritesBoth (WritesValuesUpTo self.now.text work.limit)
            (F.at files.now.folder.now self.now.board.now)
            (F.at files.now.folder.now symmetries.now)
            (stream_of O.contents O.has_failed output.old output.new) result.outcome }
        ensures writes { TellsWrites (stream_of O.contents O.has_failed output.old output.new)
            result.outcome }
        ensures unread { result.outcome ≡ Broken Read
            → CanFail (F.at files.now.folder.now self.now.board.now)
            ⊎ CanFail (F.at files.now.folder.now symmetries.now) }
    {
        let Ok(mut reader) = files.open(alloc, self.board) else {
            return Ended::unopened(files, self.board);
        };
        let Ok(mut other) = files.open(alloc, symmetries) else {
            return Ended::unopened(files, symmetries);
        };
        let outcome = self
            .text
            .write_up_to(rt, alloc, work, &mut reader, &mut other, output);
        Ended::up_to(
            outcome,
            work.limit,
            files,
            (self.board, &reader),
            (symmetries, &other),
        )
    }
}
