//! The numbers in the first lines of a board that explain a fault of it.

use board_text::line_reader::LineReader;
use board_text::{MAX_LABELS, MAX_PEBBLES};
use gap_values::MAX_GAPS;

/// The numbers in the first three lines of a board.
#[derive(Clone, Copy)]
pub(crate) struct Sizes {
    pub(crate) version: u32,
    pub(crate) labels: u32,
    pub(crate) pebbles: u32,
}

impl Sizes {
    /// The numbers of a board that begins so, if its first three lines are there.
    pub(crate) fn of(board: &[u8]) -> Option<Sizes> {
        let mut text = LineReader::new(board);
        Some(Sizes {
            version: text.number_line("board".as_bytes(), 1, 2)?,
            labels: text.number_line("labels".as_bytes(), 1, MAX_LABELS as u32)?,
            pebbles: text.number_line("pebbles".as_bytes(), 1, MAX_PEBBLES as u32)?,
        })
    }

    /// How many values the place of a pebble can have.
    fn places(self) -> u64 {
        if self.version == 2 {
            u64::from(self.labels) + 1
        } else {
            u64::from(self.labels)
        }
    }

    /// The number of configurations.
    pub(crate) fn configurations(self) -> u64 {
        self.places().saturating_pow(self.pebbles)
    }

    /// The number of classes: the ways to choose as many places as there are pebbles, in no order.
    pub(crate) fn classes(self) -> u64 {
        self.ways(self.pebbles)
    }

    /// The number of gaps: the ways to choose one place less.
    pub(crate) fn gaps(self) -> u64 {
        self.ways(self.pebbles.saturating_sub(1))
    }

    /// The number of ways to choose this `count` of places, in no order.
    fn ways(self, count: u32) -> u64 {
        let mut ways: u64 = 1;
        for chosen in 0..u64::from(count) {
            ways = ways.saturating_mul(self.places().saturating_add(chosen)) / (chosen + 1);
        }
        ways
    }

    /// Whether there are no more gaps than `--large` takes.
    pub(crate) fn has_few_gaps(self) -> bool {
        self.gaps() <= u64::from(MAX_GAPS)
    }

    /// Whether the pebbles n need more labels to last for ever, which are 2^n - 1 at least.
    pub(crate) fn has_few_labels(self) -> bool {
        u64::from(self.labels) < 2_u64.saturating_pow(self.pebbles).saturating_sub(1)
    }
}
