//! A game as numbers, and a table of the gaps in which they are answers.

ghost use Rattle.std.specs.Prelude.{◌≡◌, ◌<◌, ◌≤◌, drop, length, MatchOption, IfOk};
ghost use Rattle.board_text.specs.PlainBoard.{IsBoard};
ghost use Rattle.positions.specs.Ranks.{configurations};
ghost use Rattle.graphs.specs.Answers.{AreAnswerBits, AreMembers};
ghost use Rattle.graphs.specs.Graph.{IsGraph};
ghost use Rattle.graphs.specs.Numbered.{numbered, graph_of};
ghost use Rattle.graphs.specs.Stuck.{AreStuckZeroed};

use crate::by_ranks::ByRanks;
use crate::numbering::Numbering;
use board_text::{Board, MAX_LABELS, Memory};
use positions::{LabelSet, MAX_CONFIGURATIONS};
use std::alloc::Global;
use std::marker::Model;

/// The most places that a pebble can have: those of the labels, and one without a label.
pub const MAX_PLACES: usize = MAX_LABELS + 1;

/// A game as numbers: the members of each gap, which are found whenever they are asked for, and a
/// table of the gap in which each configuration is an answer.
///
/// Configurations and gaps are numbers from 0 on, of the type `N`. A gap has one member for each
/// place of its pebble. Contracts see the board, and whether a number stands for a configuration or
/// for a class of them.
#[derive(Drop)]
pub struct Graph<N: Numbering = ByRanks> {
    numbers: N,
    configurations: u32,
    gaps: u32,
    places: u32,
    /// The gap in which each configuration is an answer, or the number of gaps.
    struck: Vec<u32>,
}

impl<N: Numbering> Model for Graph<N> {
    ghost use Rattle.graphs.specs.Numbered.{Numbered};
    ghost use Rattle.graphs.specs.Inside.Tables.{AreTables};

    ghost Value = { Numbered };

    ghost view = { λ s. N.game s.numbers };

    ghost invariant = { λ s. AreTables (N.game s.numbers) s.configurations s.gaps s.places
        s.struck.items };
}

impl<N: Numbering> Graph<N> {
    /// The graph of `board`, which has at most `MAX_CONFIGURATIONS` configurations, by the numbers
    /// `N`. The error is that memory ran out.
    ///
    /// By ranks it takes time in the number of answers of all gaps, and by classes in the number of
    /// classes.
    pub fn of(alloc: Global, board: &Board) -> Result<Graph<N>, Memory>
        requires { configurations board.now ≤ MAX_CONFIGURATIONS }
        ensures { IfOk result (λ graph. graph ≡ numbered board.now N.numbering) }
    {
        let numbers = N::of(alloc, board)?;
        let struck = numbers.all_struck(alloc, board)?;
        Ok(Graph {
            configurations: numbers.configurations(),
            gaps: numbers.gaps(),
            places: numbers.places(),
            struck,
            numbers,
        })
    }

    /// The numbers.
    pub fn numbers(&self) -> &N
        ensures { N.game result.now ≡ self.now }
    {
        &self.numbers
    }

    /// The numbers, without the table.
    pub fn into_numbers(self) -> N
        ensures { N.game result ≡ self }
    {
        self.numbers
    }

    /// The number of configurations, each a number below it.
    pub fn configurations(&self) -> u32
        ensures value { result ≡ (graph_of self.now).configurations }
        ensures few { result ≤ MAX_CONFIGURATIONS }
        ensures small { configurations self.now.board ≤ MAX_CONFIGURATIONS }
        ensures graph { IsGraph (graph_of self.now) }
        ensures board { IsBoard self.now.board }
    {
        self.configurations
    }

    /// The number of gaps, each a number below it.
    pub fn gaps(&self) -> u32
        ensures { result ≡ (graph_of self.now).gaps }
    {
        self.gaps
    }

    /// The number of members of each gap: the places that its pebble can have.
    pub fn places(&self) -> u32
        ensures { result ≡ (graph_of self.now).places }
    {
        self.places
    }

    /// The member of `gap` with `place` for its pebble. No table has it: that would be a word for
    /// each place of each gap, and most are never read.
    pub fn member(&self, gap: u32, place: u32) -> u32
        requires gap { gap < (graph_of self.now).gaps }
        requires place { place < (graph_of self.now).places }
        ensures member { result ≡ (graph_of self.now).member gap place }
        ensures below { result < (graph_of self.now).configurations }
        ensures graph { IsGraph (graph_of self.now) }
    {
        self.numbers.member(gap, place)
    }

    /// Writes the members of `gap` by place, in ascending order. The entries after them keep what
    /// they had, so one array serves for gap after gap.
    pub fn write_members(&self, gap: u32, members: &mut [u32; MAX_PLACES])
        requires { gap < (graph_of self.now).gaps }
        ensures room { length members.new ≡ length members.old }
        ensures members { AreMembers (graph_of self.now) gap
            (graph_of self.now).places members.new }
        ensures others { drop (graph_of self.now).places members.new
            ≡ drop (graph_of self.now).places members.old }
        ensures few { (graph_of self.now).places ≤ MAX_PLACES }
        ensures graph { IsGraph (graph_of self.now) }
    {
        self.numbers.write_members(gap, members)
    }

    /// Writes 0 as the word of each member of a gap with the count 0.
    pub fn zero_stuck(&self, counts: &[u32], words: &mut [u32])
        requires counts { length counts.now ≡ (graph_of self.now).gaps }
        requires words { length words.old ≡ (graph_of self.now).configurations }
        ensures { AreStuckZeroed (graph_of self.now) counts.now
            (graph_of self.now).configurations words.old words.new }
    {
        self.numbers.zero_stuck(counts, words)
    }

    /// The labels that are answers of `gap`.
    pub fn answers(&self, gap: u32) -> LabelSet
        requires { gap < (graph_of self.now).gaps }
        ensures { AreAnswerBits (graph_of self.now) gap result }
    {
        self.numbers.answers(gap)
    }

    /// The gap in which `configuration` is an answer, if there is one.
    pub fn answered_gap(&self, configuration: u32) -> Option<u32>
        requires { configuration < (graph_of self.now).configurations }
        ensures { MatchOption result
            ((graph_of self.now).gaps ≤ (graph_of self.now).struck configuration)
            (λ gap. (gap ≡ (graph_of self.now).struck configuration)
            × (gap < (graph_of self.now).gaps)) }
    {
        let gap = self.struck[configuration as usize];
        if gap < self.gaps { Some(gap) } else { None }
    }
}
