//! Ascending numbers, among which one is found.

ghost use Rattle.std.specs.Prelude.{◌≡◌, ℕ, ◌+◌, ◌/◌, ◌^◌, ◌<◌, ◌≤◌, length, get_or, IfOk};
ghost use Rattle.std.specs.Prelude.{MatchOption};
ghost use Rattle.proof_check.specs.Inside.PartedNumbers.{Ascends, AreBelow, AreStarts, AreUpTo};
ghost use Rattle.proof_check.specs.Inside.PartedNumbers.{IsPlace, IsPartStart, LacksNumber};

use board_text::Memory;
use std::alloc::Global;
use std::marker::Model;

/// Ascending numbers. One is found by halving those of its part: the range of numbers is cut into
/// equal parts, up to one more than there are numbers.
///
/// Contracts see the numbers.
#[derive(Drop)]
pub struct SearchedNumbers {
    items: Vec<u64>,
    /// A number's part is the number divided by 2 to the power of `shift`.
    shift: u32,
    /// For each part the number of `items` that are of parts before it, and at last that of all.
    starts: Vec<usize>,
}

impl Model for SearchedNumbers {
    ghost use Rattle.proof_check.specs.NumberLists.{Numbers};
    ghost use Rattle.proof_check.specs.Inside.PartedNumbers.{AreParted};

    ghost Value = { Numbers };

    ghost view = { λ s. record { items = s.items.items } };

    ghost invariant = { λ s. AreParted s.items.items s.shift s.starts.items };
}

impl SearchedNumbers {
    /// The `numbers`, which ascend, ready to be searched.
    pub(crate) fn new(alloc: Global, numbers: Vec<u64>) -> Result<SearchedNumbers, Memory>
        requires { Ascends numbers.items }
        ensures { IfOk result (λ searched. searched.items ≡ numbers.items) }
    {
        let last = last_of(&numbers);
        let shift = shift_of(last, numbers.len());
        let starts = starts_of(alloc, &numbers, shift, part_of(last, shift) + 1)?;
        Ok(SearchedNumbers {
            items: numbers,
            shift,
            starts,
        })
    }

    /// The place of `number`, if it is one of these.
    pub(crate) fn place(&self, number: u64) -> Option<usize>
        ensures { MatchOption result (LacksNumber self.now.items number)
            (IsPlace self.now.items number) }
    {
        let part = part_of(number, self.shift);
        if self.starts.len() - 1 <= part {
            return None;
        }
        let first = self.starts[part];
        match self.items[first..self.starts[part + 1]].binary_search(&number) {
            Ok(index) => Some(first + index),
            Err(_) => None,
        }
    }
}

/// The last of `numbers`, which ascend, or 0.
fn last_of(numbers: &[u64]) -> u64
    requires { Ascends numbers.now }
    ensures { AreUpTo numbers.now result }
{
    match numbers.last() {
        Some(last) => *last,
        None => 0,
    }
}

/// The least shift by which numbers up to `last` have at most one part more than `count`.
fn shift_of(last: u64, count: usize) -> u32
    ensures { (0 < result) × (result < 64) }
{
    for shift in 1..63 {
        if part_of(last, shift) <= count {
            return shift;
        }
    }
    63
}

/// The part of `number`.
fn part_of(number: u64, shift: u32) -> usize
    requires { (0 < shift) × (shift < 64) }
    ensures part { result ≡ number / 2 ^ shift }
    ensures few { result ≤ 2 ^ 63 }
{
    (number >> shift) as usize
}

/// For each of `parts` parts the number of `numbers` that are of parts before it, and at last that
/// of all.
fn starts_of(alloc: Global, numbers: &[u64], shift: u32, parts: usize) -> Result<Vec<usize>, Memory>
    requires few { (0 < shift) × (shift < 64) }
    requires ascends { Ascends numbers.now }
    requires all { AreBelow numbers.now shift parts }
    ensures { IfOk result (λ starts. (length starts.items ≡ parts + 1)
        × AreStarts numbers.now shift starts.items) }
{
    let mut starts = Vec::with_capacity(alloc, parts.saturating_add(1))?;
    let mut start = 0;
    for part in 0..parts {
        start = first_from(numbers, shift, part, start);
        starts.push(start)?;
    }
    starts.push(numbers.len())?;
    Ok(starts)
}

/// The number of `numbers` that are of parts before `part`, as the first `start` are.
fn first_from(numbers: &[u64], shift: u32, part: usize, start: usize) -> usize
    requires few { (0 < shift) × (shift < 64) }
    requires ascends { Ascends numbers.now }
    requires within { start ≤ length numbers.now }
    requires before { (place : ℕ) → place < start → get_or numbers.now place 0 / 2 ^ shift < part }
    ensures { IsPartStart numbers.now shift part result }
{
    for index in start..numbers.len() {
        if part <= part_of(numbers[index], shift) {
            return index;
        }
    }
    numbers.len()
}
