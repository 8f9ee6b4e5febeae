//! The turns of a labeller's row, as its line writes them.

/// The number of turns that a labeller's row is listed for.
#[derive(Clone, Copy, Debug, PartialEq, Eq, PartialOrd, Ord)]
pub enum Turns {
    /// This number of requests.
    Count(u32),
    /// Requests without end.
    Always,
}
