//! How a board is solved, and solving it so.

ghost use Rattle.std.specs.Prelude.{◌≡◌, ℕ, List, false, true, IfOk, IfErr, flat_map};
ghost use Rattle.board_text.specs.Ranges.{InRange};
ghost use Rattle.console.specs.Showing.{IsMore};
ghost use Rattle.runs.specs.LimitedSolveRun.{CannotSolveWithin, SolutionWithin};
ghost use Rattle.runs.specs.Inside.SolveRun.{IsToldOnText};
ghost use Rattle.runs.specs.Notices.{IsToldInRun, nothing_after};
ghost use Rattle.runs.specs.Run.{Ran, Fails, TellsStreams, bytes_of, stream_of};

use crate::class_solving::class_solution;
use crate::fault::RunFault;
use crate::reading::{MAX_BOARD_BYTES, read_text};
use crate::solving::{solution_for, solve_text_alone};
use crate::writing::write_parts;
use board_text::{Sink, Source};
use command_line::BoardLimit;
use positions::{Side, Value};
use round_workers::MAX_WORKERS;
use std::alloc::Global;
use std::sync::Wait;
use std::thread::Threads;
use strategies::{DocumentText, GapMoves};

/// How a board is solved.
#[derive(Clone, Copy, Debug, PartialEq, Eq)]
pub struct Work {
    /// The number of workers, 1 to `MAX_WORKERS`. With several it may wait for them.
    pub workers: u8,
    /// How large the board may be.
    pub limit: BoardLimit,
    /// Whether a person is told that a large board is solved, before it is.
    pub shows_size: bool,
}

impl Work {
    /// On a small board, by this number of `workers`, and nobody is told anything.
    pub(crate) fn of(workers: u8) -> Work
        ensures { result ≡ record {
          workers = workers;
          limit = BoardLimit.Small;
          shows_size = false;
        } }
    {
        Work {
            workers,
            limit: BoardLimit::Small,
            shows_size: false,
        }
    }

    /// Reads a board and writes the document of its value: for a small board as `run_solve` does,
    /// and for one that may be large its document by classes, which a check reads and accepts. With
    /// a `side` it has the rows of that side alone, and the part of the claim that they show. The
    /// bytes written are the same for every number of workers. A person is told on `errors` what
    /// is to be told.
    ///
    /// The reader and the writer must not have failed before, nor the reader have reported its end.
    /// Nothing is written before the whole text is built. If `errors` fails, or has failed before,
    /// nothing more is written there, and the run goes on.
    pub fn solve<R: Source, W: Sink, E: Sink>(
        self,
        rt: &(impl Threads + Wait + Sync),
        alloc: Global,
        side: Option<Side>,
        reader: &mut R,
        writer: &mut W,
        errors: &mut E,
    ) -> Result<Value, RunFault>
        requires workers { InRange 1 MAX_WORKERS self.workers }
        requires reader_ready { R.has_failed reader.old ≡ false }
        requires reader_unended { R.has_ended reader.old ≡ false }
        requires writer_ready { W.has_failed writer.old ≡ false }
        ensures ok { IfOk result (Ran (SolutionWithin self.limit side) MAX_BOARD_BYTES
            (bytes_of R.remaining reader.old reader.new)
            (bytes_of W.contents writer.old writer.new)) }
        ensures fault { IfErr result (Fails (SolutionWithin self.limit side)
            (CannotSolveWithin self.limit side self.workers) MAX_BOARD_BYTES
            (bytes_of R.remaining reader.old reader.new)
            (bytes_of W.contents writer.old writer.new)) }
        ensures streams { TellsStreams result (R.has_failed reader.new ≡ true)
            (stream_of W.contents W.has_failed writer.old writer.new) }
        ensures notice { (told : List ℕ) × IsToldInRun self.limit
            (bytes_of R.remaining reader.old reader.new) self.shows_size nothing_after result told
            × IsMore E.contents E.has_failed errors.old errors.new told }
    {
        let text = read_text(alloc, reader, MAX_BOARD_BYTES)?;
        let solved = self.solution(rt, alloc, side, text.as_slice(), errors)?;
        write_parts(writer, &solved.parts)?;
        Ok(solved.value)
    }

    /// The value of the start of the board whose text is `text`, and the text of its document, for
    /// `side` alone or for both, with the notice and the lines of its rounds.
    fn solution<E: Sink>(
        self,
        rt: &(impl Threads + Wait + Sync),
        alloc: Global,
        side: Option<Side>,
        text: &[u8],
        errors: &mut E,
    ) -> Result<DocumentText, RunFault>
        requires workers { InRange 1 MAX_WORKERS self.workers }
        ensures ok { IfOk result (λ solved. SolutionWithin self.limit side
            text.now solved.value (flat_map (λ part. part.items) solved.parts.items)) }
        ensures fault { IfErr result
            (CannotSolveWithin self.limit side self.workers text.now) }
        ensures notice { (told : List ℕ)
            × IsToldOnText self.limit text.now self.shows_size result told
            × IsMore E.contents E.has_failed errors.old errors.new told }
    {
        if self.workers == 1 && side.is_none() && matches!(self.limit, BoardLimit::Small) {
            return solve_text_alone(alloc, text);
        }
        let found = self.board_with_values(rt, alloc, text, errors)?;
        let moves = GapMoves::new(&found.board, &found.values);
        match self.limit {
            BoardLimit::Small => solution_for(rt, alloc, &moves, side, self.workers),
            BoardLimit::Large => class_solution(rt, alloc, &moves, side, self.workers),
        }
    }
}
