//! The claims of strategy documents.

ghost use Rattle.std.specs.Prelude.{◌≡◌};
ghost use Rattle.positions.specs.Claim.{claim_of};

use crate::value::Value;

/// A strategy document's claim on the value of the start.
#[derive(Clone, Copy, Debug, PartialEq, Eq)]
pub enum Claim {
    /// The value is this number.
    Exactly(u32),
    /// The value is this number or more, or for ever.
    AtLeast(u32),
    /// The value is this number or less.
    AtMost(u32),
    /// The labeller answers for ever.
    Forever,
}

impl From<Value> for Claim {
    ghost from_gives = { λ value claim. claim ≡ claim_of value };

    /// The claim on a start of `value`.
    fn from(value: Value) -> Claim {
        match value {
            Value::Finite(number) => Claim::Exactly(number),
            Value::Forever => Claim::Forever,
        }
    }
}
