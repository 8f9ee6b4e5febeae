//! The claims of documents with the rows of both sides, or of one alone.

ghost use Rattle.std.specs.Prelude.{◌≡◌};
ghost use Rattle.positions.specs.Claim.{claim_of};
ghost use Rattle.proof_text.specs.Proof.{asks_adversary as asks_adversary_by};
ghost use Rattle.proof_text.specs.Proof.{asks_labeller as asks_labeller_by};
ghost use Rattle.strategies.specs.Sides.{claim_for as claim_by};

use positions::{Claim, Side, Value};

/// The claim of a document of a start of `value` with the rows of `side` alone, or of both.
pub(crate) fn claim_for(side: Option<Side>, value: Value) -> Claim
    ensures { result ≡ claim_by side (claim_of value) }
{
    match (side, value) {
        (Some(Side::Labeller), Value::Finite(number)) => Claim::AtLeast(number),
        (Some(Side::Adversary), Value::Finite(number)) => Claim::AtMost(number),
        _ => Claim::from(value),
    }
}

/// Whether a document with the `claim` has rows of the labeller.
pub(crate) fn asks_labeller(claim: Claim) -> bool
    ensures { result ≡ asks_labeller_by claim }
{
    !matches!(claim, Claim::AtMost(_))
}

/// Whether a document with the `claim` has rows of the adversary.
pub(crate) fn asks_adversary(claim: Claim) -> bool
    ensures { result ≡ asks_adversary_by claim }
{
    matches!(claim, Claim::Exactly(_) | Claim::AtMost(_))
}
