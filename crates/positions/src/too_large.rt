//! The fault of a board with too many configurations.

/// A board has more than `MAX_CONFIGURATIONS` configurations.
#[derive(Clone, Copy, Debug, PartialEq, Eq)]
pub struct TooLarge;
