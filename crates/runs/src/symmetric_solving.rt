//! Solving a board up to symmetries of its domain, over readers and writers.

ghost use Rattle.std.specs.Prelude.{◌≡◌, ◌≤◌, ◌⊎◌, ℕ, List, true, false, IfOk, IfErr, flat_map};
ghost use Rattle.board_text.specs.PlainBoard.{IsBoard};
ghost use Rattle.board_text.specs.Ranges.{InRange};
ghost use Rattle.proof_text.specs.Images.{elements_of};
ghost use Rattle.runs.specs.BoardRun.{readers_of};
ghost use Rattle.runs.specs.Inside.SolveRun.{IsUnshownUpTo};
ghost use Rattle.runs.specs.Inside.Symmetries.{AreGiven};
ghost use Rattle.runs.specs.Run.{TellsStreams, bytes_of, stream_of};
ghost use Rattle.runs.specs.SymmetricRun.{FailsUpTo, RanUpTo};
ghost use Rattle.runs.specs.SymmetricSolveRun.{CannotSolveUpTo, IsSolutionUpTo, IsSolvedUpTo};

use crate::checking::MAX_PROOF_BYTES;
use crate::class_solving::whole;
use crate::fault::RunFault;
use crate::given_symmetries::{MAX_SYMMETRIES_BYTES, Symmetries, symmetries_of};
use crate::reading::{read_board_up_to, read_text};
use crate::solving::expect_strategy;
use crate::work::Work;
use crate::writing::write_parts;
use board_text::{Board, Sink, Source};
use orbits::OrbitValues;
use positions::{Side, Value};
use proof_text::print_symmetric;
use round_workers::MAX_WORKERS;
use std::alloc::Global;
use std::thread::Threads;
use strategies::{DocumentText, GapMoves, MadeDocument, document_up_to_symmetries};

impl Work {
    /// Reads a board and then symmetries of its domain, and writes the board's document up to what
    /// these make, for `side` alone or for both, which a check reads and accepts. The bytes written
    /// are the same for every number of workers. Values are found by orbits, so that a board that
    /// may be large may have any number of gaps, and at most `MAX_ORBITS` orbits.
    ///
    /// The board is read and parsed before anything of the symmetries is read, and these are
    /// checked before anything is solved. No reader or writer must have failed before, nor a
    /// reader have reported its end. Nothing is written before the whole text is built.
    pub fn solve_up_to_symmetries<B: Source, S: Source, W: Sink>(
        self,
        rt: &(impl Threads + Sync),
        alloc: Global,
        side: Option<Side>,
        board: &mut B,
        symmetries: &mut S,
        writer: &mut W,
    ) -> Result<Value, RunFault>
        requires workers { InRange 1 MAX_WORKERS self.workers }
        requires board_ready { B.has_failed board.old ≡ false }
        requires board_unended { B.has_ended board.old ≡ false }
        requires symmetries_ready { S.has_failed symmetries.old ≡ false }
        requires symmetries_unended { S.has_ended symmetries.old ≡ false }
        requires writer_ready { W.has_failed writer.old ≡ false }
        ensures ok { IfOk result (RanUpTo (IsSolutionUpTo side) self.limit
            (readers_of B.remaining board.old board.new S.remaining symmetries.old symmetries.new)
            (bytes_of W.contents writer.old writer.new)) }
        ensures fault { IfErr result (FailsUpTo (IsSolutionUpTo side) (CannotSolveUpTo side)
            self.limit
            (readers_of B.remaining board.old board.new S.remaining symmetries.old symmetries.new)
            (bytes_of W.contents writer.old writer.new)) }
        ensures streams { TellsStreams result
            ((B.has_failed board.new ≡ true) ⊎ (S.has_failed symmetries.new ≡ true))
            (stream_of W.contents W.has_failed writer.old writer.new) }
    {
        let board = read_board_up_to(alloc, self.limit, board)?;
        let text = read_text(alloc, symmetries, MAX_SYMMETRIES_BYTES)?;
        let solved = self.symmetric_solution(rt, alloc, side, &board, text.as_slice())?;
        write_parts(writer, &solved.parts)?;
        Ok(solved.value)
    }

    /// The value of the start of `board`, and the text of its document up to the symmetries whose
    /// text is `text`, for `side` alone or for both.
    fn symmetric_solution(
        self,
        rt: &(impl Threads + Sync),
        alloc: Global,
        side: Option<Side>,
        board: &Board,
        text: &[u8],
    ) -> Result<DocumentText, RunFault>
        requires board { IsBoard board.now }
        requires workers { InRange 1 MAX_WORKERS self.workers }
        ensures ok { IfOk result (λ solved. IsSolutionUpTo side board.now text.now solved.value
            (flat_map (λ part. part.items) solved.parts.items)) }
        ensures fault { IfErr result (CannotSolveUpTo side board.now text.now) }
    {
        let symmetries = symmetries_of(alloc, board, text)?;
        let values = symmetries.values(rt, alloc, board, self.workers)?;
        let moves = GapMoves::new(board, &values);
        solution_up_to(rt, alloc, &moves, &symmetries, side, self.workers)
    }
}

/// The value of the start of the board of `moves`, and the text of its document up to `symmetries`,
/// for `side` alone or for both, with its rows made in this number of `parts`, if that text isn't
/// too long.
fn solution_up_to(
    rt: &(impl Threads + Sync),
    alloc: Global,
    moves: &GapMoves<'_, OrbitValues<'_>>,
    symmetries: &Symmetries,
    side: Option<Side>,
    parts: u8,
) -> Result<DocumentText, RunFault>
    requires given { (text : List ℕ) × AreGiven moves.now text symmetries.now }
    requires parts { 1 ≤ parts }
    ensures ok { IfOk result (λ solved. IsSolvedUpTo side moves.now
        (elements_of moves.now.labels symmetries.now.maps.items) solved.value
        (flat_map (λ part. part.items) solved.parts.items)) }
    ensures fault { IfErr result (IsUnshownUpTo side moves.now
        (elements_of moves.now.labels symmetries.now.maps.items)) }
{
    expect_strategy(moves, side)?;
    let made = document_up_to_symmetries(
        rt,
        alloc,
        moves,
        &symmetries.maps,
        &symmetries.alike,
        side,
        MAX_PROOF_BYTES,
        parts as u32,
    )?;
    let MadeDocument { value, proof } = made;
    let text = print_symmetric(alloc, moves.board(), &proof)?;
    if text.len() > MAX_PROOF_BYTES {
        return Err(RunFault::DocumentTooLarge);
    }
    let parts = whole(alloc, text)?;
    Ok(DocumentText { value, parts })
}
