//! The value of a configuration.

/// The number of requests that a labeller can answer from a configuration against every adversary.
#[derive(Clone, Copy, Debug, PartialEq, Eq, PartialOrd, Ord)]
pub enum Value {
    /// This number, and no more.
    Finite(u32),
    /// Any number.
    Forever,
}
