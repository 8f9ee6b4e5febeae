//! The result of a shared round, in the form that a solver files.

ghost use Rattle.std.specs.Prelude.{◌≡◌, ◌<◌, length, slice_index, slice_index_or, None};

use atomic_table::Closed as Rows;
use solver::{RoundEnd, value_of};
use std::alloc::Global;
use std::marker::Model;

/// A round that was closed: its words, of which the first `gaps` are counts, and the
/// configurations won.
pub struct Closed {
    pub(crate) rows: Rows<(), Global>,
    pub(crate) gaps: usize,
    pub(crate) won: Vec<u32>,
}

impl Model for Closed {
    ghost use Rattle.claim_round.specs.Shared.{Ended};

    ghost Value = { Ended };

    ghost use Rattle.claim_round.specs.Inside.ClosedTable.{end_of, IsEnd};

    ghost view = { end_of };

    ghost invariant = { IsEnd };
}

impl Closed {
    /// The ranks of the configurations that were won: those of the next value.
    pub fn won(&self) -> &[u32]
        ensures { result.now ≡ self.now.won }
    {
        self.won.as_slice()
    }

    /// The number of answers of `gap` whose result has a value above the round's.
    pub fn count_of(&self, gap: u32) -> u32
        requires { gap < length self.now.counts }
        ensures { result ≡ slice_index self.now.counts gap }
    {
        self.rows.word(gap as usize) as u32
    }

    /// The value of configuration `rank`, if it has one that is at most the round's next.
    pub fn value_at(&self, rank: u32) -> Option<u32>
        requires { rank < length self.now.values }
        ensures { result ≡ slice_index_or self.now.values rank None }
    {
        value_of(self.rows.word(self.gaps + rank as usize) as u32)
    }
}

impl RoundEnd for Closed {
    ghost won_list = { λ c. c.won };

    ghost counts = { λ c. c.counts };

    fn won(&self) -> &[u32] {
        self.won()
    }

    fn count_of(&self, gap: u32) -> u32 {
        self.count_of(gap)
    }
}

impl Drop for Closed {
    fn drop(self) {
        let Self {
            rows,
            gaps: _,
            won: _,
        } = self;
        rows.free();
    }
}
