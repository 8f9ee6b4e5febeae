//! The numbers of a board's configurations and of their gaps.

ghost use Rattle.std.specs.Prelude.{◌≡◌, ◌<◌, ◌≤◌, drop, length, IfOk};
ghost use Rattle.board_text.specs.PlainBoard.{IsBoard};
ghost use Rattle.positions.specs.Ranks.{configurations};
ghost use Rattle.graphs.specs.Answers.{AreAnswerBits, AreMembers};
ghost use Rattle.graphs.specs.Inside.Tables.{IsStruckTable};
ghost use Rattle.graphs.specs.Numbered.{Numbered, GraphNumbering, numbered, graph_of};
ghost use Rattle.graphs.specs.Stuck.{AreStuckZeroed};

use crate::graph::MAX_PLACES;
use board_text::{Board, Memory};
use positions::{LabelSet, MAX_CONFIGURATIONS};
use std::alloc::Global;

/// A way to number the configurations of a board, or classes of them, and their gaps. A type says
/// which: `ByRanks` or `ByClasses`.
pub trait Numbering: Drop {
    /// What the numbers stand for.
    ghost numbering: { GraphNumbering };

    /// The board of these numbers, and what they stand for.
    ghost game: { Self → Numbered };

    /// The numbers of `board`, which has at most `MAX_CONFIGURATIONS` configurations. The error is
    /// that memory ran out.
    fn of(alloc: Global, board: &Board) -> Result<Self, Memory>
        requires { configurations board.now ≤ MAX_CONFIGURATIONS }
        ensures { IfOk result (λ numbers. game numbers ≡ numbered board.now numbering) };

    /// The number of configurations, each a number below it.
    fn configurations(&self) -> u32
        ensures value { result ≡ (graph_of (game self.now)).configurations }
        ensures few { result ≤ MAX_CONFIGURATIONS }
        ensures small { configurations (game self.now).board ≤ MAX_CONFIGURATIONS }
        ensures is_board { IsBoard (game self.now).board };

    /// The number of gaps, each a number below it.
    fn gaps(&self) -> u32
        ensures { result ≡ (graph_of (game self.now)).gaps };

    /// The number of members of each gap: the places that its pebble can have.
    fn places(&self) -> u32
        ensures { result ≡ (graph_of (game self.now)).places };

    /// The member of `gap` with `place` for its pebble.
    fn member(&self, gap: u32, place: u32) -> u32
        requires gap { gap < (graph_of (game self.now)).gaps }
        requires place { place < (graph_of (game self.now)).places }
        ensures { result ≡ (graph_of (game self.now)).member gap place };

    /// Writes the members of `gap`, by place. The entries after them keep what they had.
    fn write_members(&self, gap: u32, members: &mut [u32; MAX_PLACES])
        requires { gap < (graph_of (game self.now)).gaps }
        ensures room { length members.new ≡ length members.old }
        ensures members { AreMembers (graph_of (game self.now)) gap
            (graph_of (game self.now)).places members.new }
        ensures others { drop (graph_of (game self.now)).places members.new
            ≡ drop (graph_of (game self.now)).places members.old };

    /// Writes 0 as the word of each member of a gap with the count 0.
    fn zero_stuck(&self, counts: &[u32], words: &mut [u32])
        requires counts { length counts.now ≡ (graph_of (game self.now)).gaps }
        requires words { length words.old ≡ (graph_of (game self.now)).configurations }
        ensures { AreStuckZeroed (graph_of (game self.now)) counts.now
            (graph_of (game self.now)).configurations words.old words.new };

    /// The labels that are answers of `gap`.
    fn answers(&self, gap: u32) -> LabelSet
        requires { gap < (graph_of (game self.now)).gaps }
        ensures { AreAnswerBits (graph_of (game self.now)) gap result };

    /// The gap in which each configuration is an answer, or the number of gaps. The error is that
    /// memory ran out.
    fn all_struck(&self, alloc: Global, board: &Board) -> Result<Vec<u32>, Memory>
        requires { (game self.now).board ≡ board.now }
        ensures { IfOk result (λ struck. IsStruckTable (graph_of (game self.now)) struck.items) };
}
