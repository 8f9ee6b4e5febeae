//! Laws of workers, each the contract of a function without a body.

ghost use Rattle.std.specs.Prelude.{◌≡◌};

use crate::solving::{MAX_WORKERS, MIN_SHARED};

/// The most workers that share a round, and the fewest classes of which a round by classes is
/// shared. CONTRIBUTING.md lists what else says these numbers.
pub fn limits()
    ensures workers { MAX_WORKERS ≡ 16 }
    ensures shared { MIN_SHARED ≡ 131072 }
{}
