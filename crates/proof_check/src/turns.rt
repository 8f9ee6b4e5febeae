//! The turns that a claim wants of the start, and that a row leaves.

ghost use Rattle.std.specs.Prelude.{◌≡◌, ◌≤◌};
ghost use Rattle.positions.specs.declared.turns.Turns.{Turns as TurnsData};
ghost use Rattle.proof_text.specs.Rules as rules;
ghost use Rattle.proof_text.specs.Rules.{IsEnough, IsWanted, one_less};
ghost use Rattle.proof_check.specs.Inside.RowCounts.{count_of_turns};

use positions::{Claim, Turns};

/// The turns that are left after one of `turns`.
pub(crate) fn after_one(turns: Turns) -> Turns
    ensures { result ≡ one_less turns }
{
    match turns {
        Turns::Count(turns) => Turns::Count(turns.saturating_sub(1)),
        Turns::Always => Turns::Always,
    }
}

/// The turns that `claim` wants of the start.
pub(crate) fn wanted_of(claim: Claim) -> Turns
    ensures { result ≡ rules.wanted_of claim }
{
    match claim {
        Claim::Exactly(number) | Claim::AtLeast(number) => Turns::Count(number),
        Claim::AtMost(_) => Turns::Count(0),
        Claim::Forever => Turns::Always,
    }
}

/// The count of a row of turns without end, which no other row has.
pub(crate) const ENDLESS: u32 = u32::MAX;

/// The count of a row of `turns`: their number, and `ENDLESS` for turns without end alone.
pub(crate) fn count_of(turns: Turns) -> u32
    ensures { result ≡ count_of_turns turns }
{
    match turns {
        Turns::Count(turns) if turns < ENDLESS => turns,
        Turns::Count(_) => ENDLESS - 1,
        Turns::Always => ENDLESS,
    }
}

/// The least count of rows that have the `wanted` turns.
pub(crate) fn least_count(wanted: Turns) -> u32
    ensures enough { (turns : TurnsData) → result ≤ count_of_turns turns → IsEnough wanted turns }
    ensures none { result ≡ 0 → ¬ IsWanted wanted }
{
    match wanted {
        Turns::Count(turns) => turns,
        Turns::Always => ENDLESS,
    }
}
