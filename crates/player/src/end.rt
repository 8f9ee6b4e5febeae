//! How a play ends, and why one is broken off.

ghost use Rattle.std.specs.Prelude.{◌≡◌, ◌↔◌, IsTrue, MatchOption};
ghost use Rattle.player.specs.Prompts.{EndsAfter, EndsBefore};
ghost use Rattle.positions.specs.declared.value.Value.TheVariants.{Finite};
ghost use Rattle.player.specs.declared.end.PlayFault.TheVariants as faults;

use positions::Value;
use std::alloc::AllocError;

/// How a play has ended, with the number of requests that were answered.
#[derive(Clone, Copy, Debug, PartialEq, Eq)]
pub enum PlayEnd {
    /// No label is legal for the pebble that was asked for.
    Stuck { requests: u32 },
    /// The person stopped, or the input ended.
    Stopped { requests: u32 },
    /// The value is forever, so the adversary has no strategy to play.
    NoStrategy,
}

impl PlayEnd {
    /// Whether fewer requests were answered than the `value` has.
    pub(crate) fn is_before(self, value: Value) -> bool
        ensures { IsTrue result ↔ EndsBefore self value }
    {
        match self {
            PlayEnd::Stuck { requests } | PlayEnd::Stopped { requests } => {
                Value::Finite(requests) < value
            }
            PlayEnd::NoStrategy => false,
        }
    }

    /// The number that the `value` is, if more requests were answered.
    pub(crate) fn passed(self, value: Value) -> Option<u32>
        ensures { MatchOption result (EndsAfter self value → ⊥)
            (λ number. (value ≡ Finite number) × EndsAfter self value) }
    {
        match (self, value) {
            (PlayEnd::Stuck { requests } | PlayEnd::Stopped { requests }, Value::Finite(number))
                if number < requests => Some(number),
            _ => None,
        }
    }
}

/// Why a play was broken off.
#[derive(Clone, Copy, Debug, PartialEq, Eq)]
pub enum PlayFault {
    /// The reader failed.
    Read,
    /// The writer failed.
    Write,
    /// A growth was refused.
    Memory,
    /// A line is longer than 64 bytes, or 1,000,000 lines didn't end the play.
    Limit,
}

impl From<AllocError> for PlayFault {
    ghost from_gives = { λ _ fault. fault ≡ faults.Memory };

    fn from(_error: AllocError) -> PlayFault {
        PlayFault::Memory
    }
}
