//! A set of numbers below a size, with a bit for each.

ghost use Rattle.std.specs.Prelude.{◌≡◌, ◌+◌, ◌^◌, ◌<◌, ◌≤◌, true, false, length, IfOk, IfSome};
ghost use Rattle.std.specs.Prelude.{replicate, slice_index_or, slice_set};
ghost use Rattle.positions.specs.Counts.{IsSmallest};
ghost use Rattle.strategies.specs.Inside.Marks.{IsMarked};

use board_text::Memory;
use std::alloc::Global;
use std::marker::Model;

/// The number of marks in a word.
const WORD: u32 = 64;

/// Marks of the numbers below `size`, a bit each. Contracts see a list of truth values.
#[derive(Drop)]
pub(crate) struct Marks {
    size: u32,
    words: Vec<u64>,
}

impl Model for Marks {
    ghost use Rattle.std.specs.Prelude.{◌*◌, ◌≤◌, List, Bool, length};
    ghost use Rattle.strategies.specs.Inside.Marks.{marks_of};

    ghost Value = { List Bool };

    ghost view = { λ m. marks_of m.size m.words.items };

    ghost invariant = { λ m. m.size ≤ 64 * length m.words.items };
}

impl Marks {
    /// Marks of `size` numbers, none of which is marked.
    pub(crate) fn new(alloc: Global, size: u32) -> Result<Marks, Memory>
        ensures { IfOk result (λ marks. marks ≡ replicate size false) }
    {
        let words = vec![in alloc; 0u64; size.div_ceil(WORD) as usize]?;
        Ok(Marks { size, words })
    }

    /// Whether `number` is marked.
    pub(crate) fn get(&self, number: u32) -> bool
        requires { number < length self.now }
        ensures { result ≡ slice_index_or self.now number false }
    {
        let word = self.words[(number / WORD) as usize];
        (word >> (number % WORD)) & 1 == 1
    }

    /// Marks `number`.
    pub(crate) fn set(&mut self, number: u32)
        requires { number < length self.old }
        ensures { self.new ≡ slice_set self.old number true }
    {
        self.words[(number / WORD) as usize] |= 1 << (number % WORD);
    }

    /// Removes the mark of `number`.
    pub(crate) fn clear(&mut self, number: u32)
        requires { number < length self.old }
        ensures { self.new ≡ slice_set self.old number false }
    {
        self.words[(number / WORD) as usize] &= !(1 << (number % WORD));
    }

    /// The smallest marked number that is at least `bound` and less than `end`, if there is one.
    pub(crate) fn first_between(&self, bound: u32, end: u32) -> Option<u32>
        ensures first { IsSmallest (λ number. (bound ≤ number) × (number < end)
            × IsMarked self.now number) result }
        ensures below { IfSome result (λ number. number + 1 < 2 ^ 32) }
    {
        let number = self.first_from(bound)?;
        if number >= end {
            return None;
        }
        Some(number)
    }

    /// The smallest marked number that is at least `bound`, if there is one.
    pub(crate) fn first_from(&self, bound: u32) -> Option<u32>
        ensures first { IsSmallest (λ number. (bound ≤ number) × IsMarked self.now number) result }
        ensures below { IfSome result (λ number. number + 1 < 2 ^ 32) }
    {
        let size = self.size as usize;
        let word = WORD as usize;
        let mut number = bound as usize;
        while number < size {
            let rest = self.words[number / word] >> (number % word);
            if rest != 0 {
                let first = number + rest.trailing_zeros() as usize;
                return if first < size {
                    Some(first as u32)
                } else {
                    None
                };
            }
            number += word - number % word;
        }
        None
    }
}
