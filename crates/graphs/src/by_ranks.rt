//! The numbers of ordered configurations: ranks.

ghost use Rattle.std.specs.Prelude.{◌≡◌, ◌<◌, ◌≤◌, length};
ghost use Rattle.board_text.specs.PlainBoard.{IsBoard};
ghost use Rattle.graphs.specs.Inside.Filling.{IsGapNoted, IsGapZeroed};
ghost use Rattle.graphs.specs.Ordered.{ordered};
ghost use Rattle.positions.specs.Ranks.{configurations};

use crate::graph::MAX_PLACES;
use crate::numbering::Numbering;
use board_text::{Board, Memory};
use positions::{LabelSet, MAX_CONFIGURATIONS, Space, TupleAnswers};
use std::alloc::Global;
use std::marker::Model;

/// Configurations numbered by rank, and gaps by their pebble and the places of the others.
#[derive(Drop)]
pub struct ByRanks {
    space: Space,
    answers: TupleAnswers,
}

impl Model for ByRanks {
    ghost use Rattle.std.specs.Prelude.{◌≡◌, ◌≤◌};
    ghost use Rattle.board_text.specs.PlainBoard.{PlainBoard, IsBoard};
    ghost use Rattle.positions.specs.Ranks.{configurations};
    ghost use Rattle.positions.specs.declared.space.TheConstants.{MAX_CONFIGURATIONS};

    ghost Value = { PlainBoard };

    ghost view = { λ s. s.space };

    ghost invariant = { λ s. (s.answers ≡ s.space) × IsBoard s.space
        × (configurations s.space ≤ MAX_CONFIGURATIONS) };
}

#[tactic(auto, unfolding(crate::specs::Numbered::graph_by))]
impl Numbering for ByRanks {
    ghost use Rattle.graphs.specs.Numbered.{Ordered, numbered};

    ghost numbering = { Ordered };

    ghost game = { λ board. numbered board Ordered };

    fn of(alloc: Global, board: &Board) -> Result<ByRanks, Memory> {
        let answers = TupleAnswers::of(alloc, board)?;
        Ok(ByRanks {
            space: Space::new(board),
            answers,
        })
    }

    fn configurations(&self) -> u32 {
        self.space.configurations()
    }

    fn gaps(&self) -> u32 {
        self.space.gaps()
    }

    fn places(&self) -> u32 {
        self.space.places() as u32
    }

    fn member(&self, gap: u32, place: u32) -> u32 {
        self.space.member(gap, place as u16)
    }

    fn write_members(&self, gap: u32, members: &mut [u32; MAX_PLACES]) {
        let row = self.space.members(gap);
        for place in 0..self.space.places() {
            members[place as usize] = row.rank(place);
        }
    }

    fn zero_stuck(&self, counts: &[u32], words: &mut [u32]) {
        for gap in 0..self.space.gaps() {
            if counts[gap as usize] == 0 {
                self.zero_members(gap, words);
            }
        }
    }

    fn answers(&self, gap: u32) -> LabelSet {
        self.answers.answers(self.space.gap_tuple(gap))
    }

    fn all_struck(&self, alloc: Global, _board: &Board) -> Result<Vec<u32>, Memory> {
        let gaps = self.space.gaps();
        let mut struck = vec![in alloc; gaps; self.space.configurations() as usize]?;
        for gap in 0..gaps {
            self.note_answers(gap, &mut struck);
        }
        Ok(struck)
    }
}

#[tactic(auto, unfolding(crate::specs::Numbered::graph_by))]
impl ByRanks {
    /// The space of the board.
    pub fn space(&self) -> &Space
        ensures value { result.now ≡ self.now }
        ensures is_board { IsBoard self.now }
        ensures few { configurations self.now ≤ MAX_CONFIGURATIONS }
    {
        &self.space
    }

    /// Notes `gap` at each of its answers.
    fn note_answers(&self, gap: u32, struck: &mut [u32])
        requires is_board { IsBoard self.now }
        requires gap { gap < (ordered self.now).gaps }
        requires size { length struck.old ≡ (ordered self.now).configurations }
        ensures { IsGapNoted (ordered self.now) gap (ordered self.now).places struck.old struck.new }
    {
        let mut labels = self.answers(gap).walk();
        while let Some(label) = labels.take_next() {
            struck[self.member(gap, label as u32) as usize] = gap;
        }
    }

    /// Writes 0 as the word of each member of `gap`.
    fn zero_members(&self, gap: u32, words: &mut [u32])
        requires gap { gap < (ordered self.now).gaps }
        requires words { length words.old ≡ (ordered self.now).configurations }
        ensures { IsGapZeroed (ordered self.now) gap (ordered self.now).places words.old words.new }
    {
        let row = self.space.members(gap);
        for place in 0..self.space.places() {
            words[row.rank(place) as usize] = 0;
        }
    }
}
