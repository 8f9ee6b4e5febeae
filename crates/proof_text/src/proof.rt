//! A strategy document, with configurations named by their ranks.

ghost use Rattle.std.specs.Prelude.{◌≡◌, ℕ};

use board_text::MAX_PEBBLES;
use positions::{Claim, Turns};

/// The greatest number of a claim or a row.
pub const MAX_TURNS: u32 = 1_000_000_000;

/// A row of either side, which names its configuration by its rank.
pub trait Ranked {
    ghost rank: { Self → ℕ };

    /// The rank of the row's configuration.
    fn rank(&self) -> u32
        ensures { result ≡ rank self.now };
}

/// A labeller's row: an answer to each request at a configuration.
#[derive(Clone, Copy, Debug, PartialEq, Eq)]
pub struct LabellerRow {
    /// The rank of the configuration.
    pub at: u32,
    /// The turns for which the configuration is listed.
    pub turns: Turns,
    /// The label that each pebble is put on; 0 in the places of pebbles that the board doesn't
    /// have.
    pub take: [u16; MAX_PEBBLES],
}

impl Ranked for LabellerRow {
    ghost rank = { λ row. row.at };

    fn rank(&self) -> u32 {
        self.at
    }
}

/// An adversary's row: the request to make at a configuration.
#[derive(Clone, Copy, Debug, PartialEq, Eq)]
pub struct AdversaryRow {
    /// The rank of the configuration.
    pub at: u32,
    /// The largest number of answers that the labeller has left.
    pub left: u32,
    /// The pebble that is requested.
    pub ask: u8,
}

impl Ranked for AdversaryRow {
    ghost rank = { λ row. row.at };

    fn rank(&self) -> u32 {
        self.at
    }
}

/// A claim on the value of the start, and a strategy for each side that the claim asks for.
#[derive(Debug, Drop)]
pub struct Proof {
    pub claim: Claim,
    pub labeller: Vec<LabellerRow>,
    pub adversary: Vec<AdversaryRow>,
}
