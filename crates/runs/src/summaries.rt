//! Reports and starts of a board, whose values are found by its gaps, or up to symmetries of its
//! domain by orbits.

ghost use Rattle.std.specs.Prelude.{◌≡◌, ◌≤◌, ◌⊎◌, ℕ, List, true, false, IfOk, IfErr, string_bytes};
ghost use Rattle.board_text.specs.PlainBoard.{IsBoard};
ghost use Rattle.board_text.specs.Ranges.{InRange};
ghost use Rattle.console.specs.Showing.{IsMore};
ghost use Rattle.runs.specs.BoardRun.{readers_of};
ghost use Rattle.runs.specs.Inside.SolveRun.{IsToldOnText};
ghost use Rattle.runs.specs.Notices.{IsToldInRun, nothing_after};
ghost use Rattle.runs.specs.Run.{Fails, Ran, TellsStreams, bytes_of, stream_of};
ghost use Rattle.runs.specs.SolveRun.{CannotSolve};
ghost use Rattle.runs.specs.Summaries.{IsSummary, Summarizes};
ghost use Rattle.runs.specs.SymmetricRun.{FailsUpTo, HasNoFewOrbits, RanUpTo, SaysUpTo};

use crate::fault::RunFault;
use crate::given_symmetries::{MAX_SYMMETRIES_BYTES, symmetries_of};
use crate::reading::{MAX_BOARD_BYTES, read_board_up_to, read_text};
use crate::reporting::report_by;
use crate::starting::starts_by;
use crate::told_values::BoardWithValues;
use crate::work::Work;
use crate::writing::write_text;
use board_text::{Board, Memory, Sink, Source};
use round_workers::MAX_WORKERS;
use std::alloc::Global;
use std::sync::Wait;
use std::thread::Threads;
use strategies::GapMoves;

/// A text on the values of a board, without a strategy.
#[derive(Clone, Copy, Debug, PartialEq, Eq)]
pub enum Summary {
    /// The report: the value of the start, and how many configurations have each value.
    Report,
    /// The starts: the value with all pebbles on each label, and with none on any, if the board
    /// has such places.
    Starts,
}

impl Work {
    /// Reads a board, finds its values and writes its `summary`: its report, as `run_report` does,
    /// or its starts. It tells a person on `errors` what is to be told. The bytes written are the
    /// same for every number of workers.
    ///
    /// The reader and the writer must not have failed before, nor the reader have reported its end.
    /// Nothing is written before the whole text is built. If `errors` fails, or has failed before,
    /// nothing more is written there, and the run goes on.
    pub fn summarize<R: Source, W: Sink, E: Sink>(
        self,
        rt: &(impl Threads + Wait + Sync),
        alloc: Global,
        summary: Summary,
        reader: &mut R,
        writer: &mut W,
        errors: &mut E,
    ) -> Result<(), RunFault>
        requires workers { InRange 1 MAX_WORKERS self.workers }
        requires reader_ready { R.has_failed reader.old ≡ false }
        requires reader_unended { R.has_ended reader.old ≡ false }
        requires writer_ready { W.has_failed writer.old ≡ false }
        ensures ok { IfOk result (Ran (Summarizes summary self.limit) MAX_BOARD_BYTES
            (bytes_of R.remaining reader.old reader.new)
            (bytes_of W.contents writer.old writer.new)) }
        ensures fault { IfErr result (Fails (Summarizes summary self.limit)
            (CannotSolve self.limit self.workers) MAX_BOARD_BYTES
            (bytes_of R.remaining reader.old reader.new)
            (bytes_of W.contents writer.old writer.new)) }
        ensures streams { TellsStreams result (R.has_failed reader.new ≡ true)
            (stream_of W.contents W.has_failed writer.old writer.new) }
        ensures notice { (told : List ℕ) × IsToldInRun self.limit
            (bytes_of R.remaining reader.old reader.new) self.shows_size nothing_after result told
            × IsMore E.contents E.has_failed errors.old errors.new told }
    {
        let text = read_text(alloc, reader, MAX_BOARD_BYTES)?;
        let written = self.summary_of_text(rt, alloc, summary, text.as_slice(), errors)?;
        write_text(writer, &written)
    }

    /// The `summary` of the board whose text is `text`, with the notice and the lines of its
    /// rounds.
    fn summary_of_text<E: Sink>(
        self,
        rt: &(impl Threads + Wait + Sync),
        alloc: Global,
        summary: Summary,
        text: &[u8],
        errors: &mut E,
    ) -> Result<String, RunFault>
        requires workers { InRange 1 MAX_WORKERS self.workers }
        ensures summary { IfOk result (λ written.
            Summarizes summary self.limit text.now tt (string_bytes written)) }
        ensures fault { IfErr result (CannotSolve self.limit self.workers text.now) }
        ensures notice { (told : List ℕ)
            × IsToldOnText self.limit text.now self.shows_size result told
            × IsMore E.contents E.has_failed errors.old errors.new told }
    {
        let found = self.board_with_values(rt, alloc, text, errors)?;
        Ok(self.summary_by(rt, alloc, summary, &found)?)
    }

    /// The `summary` of a board, by its values. The error is that memory ran out.
    fn summary_by(
        self,
        rt: &(impl Threads + Sync),
        alloc: Global,
        summary: Summary,
        found: &BoardWithValues,
    ) -> Result<String, Memory>
        requires values { found.now.values ≡ found.now.board }
        requires workers { 1 ≤ self.workers }
        ensures { IfOk result (λ written. IsSummary summary found.now.board
            (string_bytes written)) }
    {
        let moves = GapMoves::new(&found.board, &found.values);
        match summary {
            Summary::Report => {
                let sizes = found.values.sizes_by(rt, alloc, self.workers)?;
                Ok(report_by(alloc, &moves, &sizes)?)
            }
            Summary::Starts => starts_by(alloc, &moves),
        }
    }

    /// Reads a board and then symmetries of its domain, and writes the board's `summary`, as
    /// `summarize` does. Values are found by orbits, so that a board that may be large may have any
    /// number of gaps, and at most `MAX_ORBITS` orbits. The bytes written are the same for every
    /// number of workers.
    ///
    /// The board is read and parsed before anything of the symmetries is read, and these are
    /// checked before anything is solved. No reader or writer must have failed before, nor a
    /// reader have reported its end. Nothing is written before the whole text is built.
    pub fn summarize_up_to_symmetries<B: Source, S: Source, W: Sink>(
        self,
        rt: &(impl Threads + Sync),
        alloc: Global,
        summary: Summary,
        board: &mut B,
        symmetries: &mut S,
        writer: &mut W,
    ) -> Result<(), RunFault>
        requires workers { InRange 1 MAX_WORKERS self.workers }
        requires board_ready { B.has_failed board.old ≡ false }
        requires board_unended { B.has_ended board.old ≡ false }
        requires symmetries_ready { S.has_failed symmetries.old ≡ false }
        requires symmetries_unended { S.has_ended symmetries.old ≡ false }
        requires writer_ready { W.has_failed writer.old ≡ false }
        ensures ok { IfOk result (RanUpTo (SaysUpTo summary) self.limit
            (readers_of B.remaining board.old board.new S.remaining symmetries.old symmetries.new)
            (bytes_of W.contents writer.old writer.new)) }
        ensures fault { IfErr result (FailsUpTo (SaysUpTo summary) HasNoFewOrbits self.limit
            (readers_of B.remaining board.old board.new S.remaining symmetries.old symmetries.new)
            (bytes_of W.contents writer.old writer.new)) }
        ensures streams { TellsStreams result
            ((B.has_failed board.new ≡ true) ⊎ (S.has_failed symmetries.new ≡ true))
            (stream_of W.contents W.has_failed writer.old writer.new) }
    {
        let board = read_board_up_to(alloc, self.limit, board)?;
        let text = read_text(alloc, symmetries, MAX_SYMMETRIES_BYTES)?;
        let written = self.summary_up_to(rt, alloc, summary, &board, text.as_slice())?;
        write_text(writer, &written)
    }

    /// The `summary` of `board`, by its orbits up to the symmetries whose text is `text`.
    fn summary_up_to(
        self,
        rt: &(impl Threads + Sync),
        alloc: Global,
        summary: Summary,
        board: &Board,
        text: &[u8],
    ) -> Result<String, RunFault>
        requires board { IsBoard board.now }
        requires workers { InRange 1 MAX_WORKERS self.workers }
        ensures summary { IfOk result (λ written. SaysUpTo summary board.now text.now tt
            (string_bytes written)) }
        ensures fault { IfErr result (HasNoFewOrbits board.now text.now) }
    {
        let symmetries = symmetries_of(alloc, board, text)?;
        let values = symmetries.values(rt, alloc, board, self.workers)?;
        let moves = GapMoves::new(board, &values);
        match summary {
            Summary::Report => {
                let sizes = values.sizes(alloc)?;
                Ok(report_by(alloc, &moves, &sizes)?)
            }
            Summary::Starts => Ok(starts_by(alloc, &moves)?),
        }
    }
}
