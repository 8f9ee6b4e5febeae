//! A walk over configurations by their ranks, with what their rows' lines begin with.

ghost use Rattle.std.specs.Prelude.{◌≡◌, ◌<◌, ◌≤◌};
ghost use Rattle.positions.specs.Ranks.{configurations, configuration_at, rank_of};
ghost use Rattle.proof_text.specs.Inside.RowText.{row_head};
ghost use Rattle.strategies.specs.Inside.MovesAt.{position};
ghost use Rattle.strategies.specs.Inside.Walks.{others_held};

use crate::position_walk::PositionWalk;
use crate::rank_moves::RankMoves;
use crate::walk::Walk;
use positions::MAX_CONFIGURATIONS;
use proof_text::{PlaceWords, RowHead};
use std::marker::Model;

/// A walk, the words of the board's places, and the head of the lines of rows at configurations
/// that differ from the present one in the last pebble's place alone.
///
/// Contracts see the board and the configuration.
#[derive(Drop)]
pub(crate) struct LineWalk<'a> {
    walk: Walk<'a>,
    words: &'a PlaceWords,
    head: RowHead,
}

impl<'a> Model for LineWalk<'a> {
    ghost use Rattle.strategies.specs.Inside.MovesAt.{HeldPosition};
    ghost use Rattle.strategies.specs.Inside.Walks.{IsLineWalk};

    ghost Value = { HeldPosition };

    ghost view = { λ w. w.walk };

    ghost invariant = { λ w. IsLineWalk w.walk w.words.now w.head };
}

impl<'a> LineWalk<'a> {
    /// A walk by `moves`, at the start.
    pub(crate) fn at_start(moves: &'a RankMoves<'a>, words: &'a PlaceWords) -> LineWalk<'a>
        requires { words.now ≡ moves.now.labels }
        ensures start { result ≡ position moves.now
            (configuration_at moves.now (rank_of moves.now moves.now.start)) }
        ensures few { configurations moves.now ≤ MAX_CONFIGURATIONS }
    {
        let walk = Walk::at(moves, moves.start());
        let head = RowHead::of(words, walk.others());
        LineWalk { walk, words, head }
    }

    /// Goes to the configuration of `rank`.
    pub(crate) fn go_to(&mut self, rank: u32)
        requires { rank < configurations self.old.board }
        ensures { self.new ≡ position self.old.board (configuration_at self.old.board rank) }
    {
        let is_new = !self.walk.is_near(rank);
        self.walk.go_to(rank as u64);
        if is_new {
            self.head = RowHead::of(self.words, self.walk.others());
        }
    }

    /// The walk.
    pub(crate) fn walk(&self) -> &Walk<'a>
        ensures { result.now ≡ self.now }
    {
        &self.walk
    }

    /// The words of the board's places.
    pub(crate) fn words(&self) -> &'a PlaceWords
        ensures { result.now ≡ self.now.board.labels }
    {
        self.words
    }

    /// The head of the lines of rows here.
    pub(crate) fn head(&self) -> &RowHead
        ensures { result.now ≡ row_head self.now.board.labels (others_held self.now.board
            self.now.held) }
    {
        &self.head
    }
}
