//! The best moves at configurations given by ranks, by tables that are made once.

ghost use Rattle.std.specs.Prelude.{◌≡◌, ◌-◌, ◌<◌, ◌≤◌, IfOk};
ghost use Rattle.board_text.specs.PlainBoard.{IsBoard, places};
ghost use Rattle.classes.specs.Lists.{AreClassLists};
ghost use Rattle.classes.specs.Numbers.{ways};
ghost use Rattle.positions.specs.Ranks.{configurations, configuration_at, rank_of};
ghost use Rattle.strategies.specs.Inside.MovesAt.{position};
ghost use Rattle.strategies.specs.Inside.RankMoves.{AreBestOfAll, IsBestOfNumber, class_of_gap};

use crate::answer::Answer;
use crate::gap_moves::GapMoves;
use crate::gap_walk::GapWalk;
use board_text::{Board, Memory};
use classes::{ClassNumbers, MemberTables, Places};
use gap_values::ValueTable;
use positions::{MAX_CONFIGURATIONS, Space};
use std::alloc::Global;
use std::marker::Model;

/// The best moves on a board, at configurations given by their ranks, which a walk goes over.
///
/// Contracts see the board.
#[derive(Drop)]
pub(crate) struct RankMoves<'a> {
    board: &'a Board,
    space: &'a Space,
    members: MemberTables,
    /// The best answer of each gap, by the number of its class.
    best: Vec<Answer>,
}

impl<'a> Model for RankMoves<'a> {
    ghost use Rattle.board_text.specs.PlainBoard.{PlainBoard};
    ghost use Rattle.strategies.specs.Inside.RankMoves.{AreRankMoves};

    ghost Value = { PlainBoard };

    ghost view = { λ m. m.board.now };

    ghost invariant = { λ m. AreRankMoves m.board.now m.space.now m.members m.best.items };
}

impl<'a> RankMoves<'a> {
    /// The best moves by `moves`, on the board of `space`. The error is that memory ran out.
    pub(crate) fn of<V: ValueTable>(
        alloc: Global,
        moves: &GapMoves<'a, V>,
        space: &'a Space,
    ) -> Result<RankMoves<'a>, Memory>
        requires same_board { space.now ≡ moves.now }
        ensures value { IfOk result (λ ranked. ranked ≡ moves.now) }
        ensures few { IfOk result (λ _. configurations moves.now ≤ MAX_CONFIGURATIONS) }
    {
        let board = moves.board();
        let numbers = ClassNumbers::of(alloc, board)?;
        let gaps = numbers.lists(alloc, space.pebbles() - 1)?;
        Ok(RankMoves {
            board,
            space,
            members: numbers.member_tables(alloc, board)?,
            best: best_of_gaps(alloc, moves, space, &gaps)?,
        })
    }

    /// The board.
    pub(crate) fn board(&self) -> &'a Board
        ensures value { result.now ≡ self.now }
        ensures is_board { IsBoard self.now }
    {
        self.board
    }

    /// The configurations and gaps of the board.
    pub(crate) fn space(&self) -> &'a Space
        ensures value { result.now ≡ self.now }
        ensures is_board { IsBoard self.now }
        ensures few { configurations self.now ≤ MAX_CONFIGURATIONS }
    {
        self.space
    }

    /// The rank of the start.
    pub(crate) fn start(&self) -> u32
        ensures rank { result ≡ rank_of self.now self.now.start }
        ensures below { result < configurations self.now }
        ensures is_board { IsBoard self.now }
        ensures few { configurations self.now ≤ MAX_CONFIGURATIONS }
    {
        self.space.rank(self.board.start())
    }

    /// A walk that gives gaps, at the configuration of `rank`.
    pub(crate) fn gaps_at(&self, rank: u32) -> GapWalk<'_>
        requires { rank < configurations self.now }
        ensures walk { result ≡ position self.now (configuration_at self.now rank) }
        ensures few { configurations self.now ≤ MAX_CONFIGURATIONS }
    {
        GapWalk::at(self.space, &self.members, rank)
    }

    /// The best answer to each request whose gap has the class of this `number`, if there is one.
    pub(crate) fn best_of_gap(&self, number: u32) -> Answer
        requires { number < ways (self.now.pebbles - 1) (places self.now) }
        ensures { IsBestOfNumber class_of_gap self.now number result }
    {
        self.best[number as usize]
    }
}

/// The best answer of each of the `gaps`, which are all of the board, by `moves`.
fn best_of_gaps<V: ValueTable>(
    alloc: Global,
    moves: &GapMoves<'_, V>,
    space: &Space,
    gaps: &[Places],
) -> Result<Vec<Answer>, Memory>
    requires same_board { space.now ≡ moves.now }
    requires gaps { AreClassLists (places space.now) (space.now.pebbles - 1) gaps.now }
    ensures { IfOk result (λ best. AreBestOfAll space.now best.items) }
{
    let mut best = Vec::with_capacity(alloc, gaps.len())?;
    for index in 0..gaps.len() {
        // Whichever place the pebble has, the gap is the same.
        let held = gaps[index].with_first(space.places() - 1);
        best.push(Answer::of(moves.best(held.as_slice(), 0)))?;
    }
    Ok(best)
}
