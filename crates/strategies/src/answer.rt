//! The best answer to a request, with the number of requests that it leaves.

ghost use Rattle.std.specs.Prelude.{◌≡◌, None, IfSome};
ghost use Rattle.strategies.specs.Inside.Answers.{IsLesser, label_of, value_with};
ghost use Rattle.strategies.specs.Inside.RankMoves.{IsCountable, answered_with, one_more};

use gap_values::Best;
use positions::Value;
use std::marker::Model;

/// The number that stands for any number of requests.
pub(crate) const ENDLESS: u32 = u32::MAX;

/// The best answer to a request, if there is one, and the value of the configuration after it.
///
/// Contracts see the best answer.
#[derive(Clone, Copy)]
pub(crate) struct Answer {
    label: u16,
    /// How many requests can be answered if this one is the first.
    requests: u32,
}

impl Model for Answer {
    ghost use Rattle.std.specs.Prelude.{Option};
    ghost use Rattle.std.proofs.Common.{ap, ◌∙◌};
    ghost use Rattle.gap_values.specs.declared.value_table.Best.{Best};
    ghost use Rattle.strategies.specs.Inside.Answers.{IsAnswerInNumbers, best_with, label_of};
    ghost use Rattle.strategies.specs.Inside.Answers.{requests_of, same_label, same_requests};

    ghost Value = { Option Best };

    ghost view = { λ a. best_with a.label a.requests };

    ghost invariant = { λ a. IsAnswerInNumbers a.label a.requests };

    ghost inverse = { λ best. record { label = label_of best; requests = requests_of best } };

    ghost inverse_ok = { λ a h.
        ap (λ l. record { label = l; requests = requests_of (best_with a.label a.requests) })
        (same_label a.label a.requests h)
        ∙ ap (λ r. record { label = a.label; requests = r }) (same_requests a.label a.requests h) };
}

impl Answer {
    /// No answer.
    pub(crate) fn none() -> Answer
        ensures { result ≡ None }
    {
        Answer {
            label: 0,
            requests: 0,
        }
    }

    /// The answer that `best` is.
    pub(crate) fn of(best: Option<Best>) -> Answer
        requires { IsCountable best }
        ensures { result ≡ best }
    {
        let Some(best) = best else {
            return Answer::none();
        };
        Answer {
            label: best.label,
            requests: match best.value {
                Value::Finite(number) => number + 1,
                Value::Forever => ENDLESS,
            },
        }
    }

    /// The best answer, if there is one.
    pub(crate) fn best(self) -> Option<Best>
        ensures { result ≡ self }
    {
        if self.requests == 0 {
            return None;
        }
        let value = if self.requests < ENDLESS {
            Value::Finite(self.requests - 1)
        } else {
            Value::Forever
        };
        Some(Best {
            label: self.label,
            value,
        })
    }

    /// The label of the best answer, and 0 without one.
    pub(crate) fn label(self) -> u16
        ensures { result ≡ label_of self }
    {
        self.label
    }

    /// How many requests can be answered if this one is the first, or `ENDLESS`.
    pub(crate) fn requests(self) -> u32
        ensures { value_with result ≡ answered_with self }
    {
        self.requests
    }
}

/// The lesser of two values.
pub(crate) fn lesser(first: Value, second: Value) -> Value
    ensures { IsLesser first second result }
{
    if second < first { second } else { first }
}

/// One more than `value`, if its number has 32 bits.
pub(crate) fn next_value(value: Value) -> Option<Value>
    ensures { IfSome result (λ next. next ≡ one_more value) }
{
    let Value::Finite(number) = value else {
        return Some(Value::Forever);
    };
    Some(Value::Finite(number.checked_add(1)?))
}

/// The value of a configuration at which this number of requests can be answered.
pub(crate) fn value_of(requests: u32) -> Value
    ensures { result ≡ value_with requests }
{
    if requests < ENDLESS {
        Value::Finite(requests)
    } else {
        Value::Forever
    }
}
