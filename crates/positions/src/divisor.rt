//! Division of many numbers by one, without a division for each.

ghost use Rattle.std.specs.Prelude.{◌≡◌, ◌*◌, ◌/◌, ◌%◌, ◌<◌, ◌≤◌};

use crate::space::MAX_CONFIGURATIONS;
use board_text::MAX_PEBBLES;
use std::marker::Model;

/// A divisor, 1 to `MAX_CONFIGURATIONS`, that divides by a product instead of a division.
///
/// Contracts see the divisor.
#[derive(Clone, Copy)]
pub(crate) struct Divisor {
    by: u32,
    /// 2^43 divided by the divisor, and one more.
    factor: u64,
}

impl Model for Divisor {
    ghost use Rattle.std.specs.Prelude.{ℕ, ◌+◌, ◌/◌, ◌^◌};
    ghost use Rattle.std.proofs.Common.{sym, ap};
    ghost use Rattle.positions.specs.Inside.Weights.{IsDivisor};

    ghost Value = { ℕ };

    ghost view = { λ d. d.by };

    ghost invariant = { λ d. IsDivisor d.by d.factor };

    ghost inverse = { λ n. record { by = n; factor = 2 ^ 43 / n + 1 } };

    ghost inverse_ok = { λ d h. ap (λ f. record { by = d.by; factor = f }) (sym h.factor_is) };
}

impl Divisor {
    /// The divisor `by`.
    pub(crate) fn new(by: u32) -> Divisor
        requires some { 0 < by }
        requires few { by ≤ MAX_CONFIGURATIONS }
        ensures { result ≡ by }
    {
        let factor = (1 << 43) / by as u64 + 1;
        Divisor { by, factor }
    }

    /// The number.
    pub(crate) fn value(self) -> u32
        ensures value { result ≡ self }
        ensures some { 0 < result }
    {
        self.by
    }

    /// The quotient of `number` by the divisor.
    pub(crate) fn quotient(self, number: u32) -> u32
        requires few { number ≤ MAX_PEBBLES * MAX_CONFIGURATIONS }
        requires not_many { number ≤ MAX_CONFIGURATIONS * self }
        ensures { result ≡ number / self }
    {
        ((number as u64 * self.factor) >> 43) as u32
    }

    /// The remainder of `number` by the divisor.
    pub(crate) fn rest(self, number: u32) -> u32
        requires few { number ≤ MAX_PEBBLES * MAX_CONFIGURATIONS }
        requires not_many { number ≤ MAX_CONFIGURATIONS * self }
        ensures { result ≡ number % self }
    {
        number - self.quotient(number) * self.by
    }
}
