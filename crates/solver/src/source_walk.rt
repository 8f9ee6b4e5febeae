//! The members of a gap that have no value yet, one after the other.

ghost use Rattle.std.specs.Prelude.{◌≡◌, ◌∷◌, [], MatchOption};

use gap_values::OPEN;
use graphs::{ByRanks, Graph, Numbering};
use std::marker::Model;

/// A walk over the members of a gap that have no value of at most the number of rounds. Contracts
/// see those that are left.
#[derive(Drop)]
pub struct SourceWalk<'a, N: Numbering = ByRanks> {
    pub(crate) graph: &'a Graph<N>,
    pub(crate) words: &'a [u32],
    pub(crate) gap: u32,
    /// The place of the next member.
    pub(crate) place: u32,
}

impl<'a, N: Numbering> Model for SourceWalk<'a, N> {
    ghost use Rattle.std.specs.Prelude.{ℕ, List};
    ghost use Rattle.graphs.specs.Numbered.{graph_of};
    ghost use Rattle.solver.specs.Inside.SourceWalk.{open_from, IsWalk};

    ghost Value = { List ℕ };

    ghost view = { λ s. open_from (graph_of s.graph.now) s.words.now s.gap s.place };

    ghost invariant = { λ s. IsWalk (graph_of s.graph.now) s.words.now s.gap };
}

impl<'a, N: Numbering> SourceWalk<'a, N> {
    /// The next of them, if one is left.
    pub fn take_next(&mut self) -> Option<u32>
        ensures { MatchOption result ((self.old ≡ []) × (self.new ≡ []))
            (λ member. self.old ≡ member ∷ self.new) }
    {
        for place in self.place..self.graph.places() {
            let member = self.graph.member(self.gap, place);
            if self.words[member as usize] == OPEN {
                self.place = place + 1;
                return Some(member);
            }
        }
        self.place = self.graph.places();
        None
    }
}
