//! The values of a board, with the notice that it is solved and the lines of its rounds.

ghost use Rattle.std.specs.Prelude.{◌≡◌, ◌-◌, ◌≤◌, ℕ, IfErr, IfOk, List, MatchResult, []};
ghost use Rattle.board_text.specs.PlainBoard.{places};
ghost use Rattle.board_text.specs.Ranges.{InRange};
ghost use Rattle.classes.specs.Numbers.{ways};
ghost use Rattle.console.specs.Showing.{IsMore};
ghost use Rattle.runs.specs.Inside.SolveRun.{IsRefused, IsToldOnText};
ghost use Rattle.runs.specs.Notices.{AreAllRounds, AreRoundsTold, is_told_of, nothing_after};
ghost use Rattle.runs.specs.SolveRun.{CannotSolve};
ghost use Rattle.runs.specs.Texts.{IsBoardWithin, IsWithinLimit};

use crate::boards::board_within;
use crate::fault::RunFault;
use crate::notices::{RoundLines, tell_size};
use crate::playing::Playing;
use crate::work::Work;
use board_text::{Board, Memory, Sink};
use command_line::BoardLimit;
use gap_values::{GapValues, MAX_GAPS, OnThisThread, by_workers};
use round_workers::{MAX_WORKERS, NoGate, solve_classes};
use std::alloc::Global;
use std::sync::Wait;
use std::thread::Threads;

/// A board and its values.
#[derive(Drop)]
pub(crate) struct BoardWithValues {
    pub(crate) board: Board,
    pub(crate) values: GapValues,
}

impl Work {
    /// The board whose text is `text`, and its values, with the notice and the lines of its rounds.
    pub(crate) fn board_with_values<E: Sink>(
        self,
        rt: &(impl Threads + Wait + Sync),
        alloc: Global,
        text: &[u8],
        errors: &mut E,
    ) -> Result<BoardWithValues, RunFault>
        requires workers { InRange 1 MAX_WORKERS self.workers }
        ensures board { IfOk result (λ found. IsBoardWithin self.limit text.now found.board) }
        ensures values { IfOk result (λ found. found.values ≡ found.board) }
        ensures fault { IfErr result (CannotSolve self.limit self.workers text.now) }
        ensures notice { (told : List ℕ)
            × IsToldOnText self.limit text.now self.shows_size result told
            × IsMore E.contents E.has_failed errors.old errors.new told }
    {
        let board = board_within(alloc, self.limit, text)?;
        tell_size(&board, self.shows_size, errors);
        let values = self.values(rt, alloc, &board, errors)?;
        Ok(BoardWithValues { board, values })
    }

    /// The values of `board`, which is within the limit. Several workers share the rounds over the
    /// graph of a small board; of any other they close the gaps of a round, and a person is told of
    /// it.
    fn values<E: Sink>(
        self,
        rt: &(impl Threads + Wait + Sync),
        alloc: Global,
        board: &Board,
        errors: &mut E,
    ) -> Result<GapValues, RunFault>
        requires within { IsWithinLimit self.limit board.now }
        requires gaps { ways (board.now.pebbles - 1) (places board.now) ≤ MAX_GAPS }
        requires workers { InRange 1 MAX_WORKERS self.workers }
        ensures values { IfOk result (λ values. values ≡ board.now) }
        ensures refused { IfErr result (IsRefused self.limit self.workers board.now) }
        ensures rounds { (told : List ℕ) × AreRoundsTold self.shows_size nothing_after board.now
            result told
            × IsMore E.contents E.has_failed errors.old errors.new told }
    {
        match self.limit {
            BoardLimit::Small if self.workers > 1 => {
                Ok(solve_classes(rt, alloc, board, self.workers as u32, &NoGate)?)
            }
            _ => {
                let lines = RoundLines::of(board, self.shows_size);
                let workers = by_workers(rt, self.workers);
                Ok(GapValues::of(alloc, board, &workers, &lines, errors)?)
            }
        }
    }
}

impl Playing {
    /// The values of `board`, found on this thread. The person is told of the rounds. The error is
    /// that memory ran out, and then nothing was told.
    pub(crate) fn values<E: Sink>(
        self,
        alloc: Global,
        board: &Board,
        errors: &mut E,
    ) -> Result<GapValues, Memory>
        requires gaps { ways (board.now.pebbles - 1) (places board.now) ≤ MAX_GAPS }
        ensures values { IfOk result (λ values. values ≡ board.now) }
        ensures rounds { (told : List ℕ) × MatchResult result
            (λ values. AreAllRounds (is_told_of self.shows_size board.now) board.now told)
            (λ memory. told ≡ [])
            × IsMore E.contents E.has_failed errors.old errors.new told }
    {
        let lines = RoundLines::of(board, self.shows_size);
        GapValues::of(alloc, board, &OnThisThread, &lines, errors)
    }
}
