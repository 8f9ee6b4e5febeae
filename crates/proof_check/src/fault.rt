//! Why a document is refused.

use positions::Side;

/// The first fault of a document. Positions are given by their ranks.
#[derive(Clone, Copy, Debug, PartialEq, Eq)]
pub enum CheckFault {
    /// The start isn't listed.
    StartMissing { side: Side },
    /// The number of the start's row doesn't serve the claim.
    StartNumber { side: Side },
    /// The answer to a request of the pebble is no legal one.
    IllegalAnswer { at: u32, pebble: u8 },
    /// The result of the labeller's answer for the pebble `turn`, or of the adversary's row with
    /// the label `turn`, isn't listed.
    Unlisted { side: Side, at: u32, turn: u16 },
    /// The result of the answer for the pebble is listed with too small a number.
    TooSmall { at: u32, pebble: u8 },
    /// The adversary's row has the number 0, and the label is a legal answer.
    NotStuck { at: u32, label: u16 },
    /// The result with the label is listed with too large a number.
    TooLarge { at: u32, label: u16 },
    /// A growth of memory was refused.
    Memory,
}
