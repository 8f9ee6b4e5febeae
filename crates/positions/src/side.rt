//! The two who play.

/// One of the two who play.
#[derive(Clone, Copy, Debug, PartialEq, Eq)]
pub enum Side {
    /// It answers a request with a label.
    Labeller,
    /// It names the pebble of a request.
    Adversary,
}
