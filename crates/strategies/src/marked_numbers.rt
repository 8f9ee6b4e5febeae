//! A set of reached numbers below a size, as marks.

ghost use Rattle.std.specs.Prelude.{◌≡◌, ◌<◌, IfOk, IfSome, MatchOption, length};
ghost use Rattle.strategies.specs.Inside.Marks.{IsMarked};
ghost use Rattle.strategies.specs.Inside.ReachedMarks.{NoMarkIsLeft, none_reached};

use crate::marks::Marks;
use crate::reached_numbers::ReachedNumbers;
use crate::unmade::Unmade;
use board_text::Memory;
use std::alloc::Global;
use std::marker::Model;

/// The numbers that were reached, and those of them from which no step was taken yet, a mark for
/// each. They are taken in ascending order, near ones together, and again and again from the
/// first, so that a walk goes over places that are near to one another.
#[derive(Drop)]
pub(crate) struct MarkedNumbers {
    marks: Marks,
    left: Marks,
    /// The first number near to the one that was taken last, from which the next one is looked for.
    next: u32,
}

/// Numbers are near to one another if they have the same quotient by this one: their marks are in
/// one word.
const NEAR: u32 = 64;

impl Model for MarkedNumbers {
    ghost use Rattle.strategies.specs.Inside.ReachedMarks.{ReachedMarks, AreLeftOfReached};

    ghost Value = { ReachedMarks };

    ghost view = { λ s. record { reached = s.marks; left = s.left } };

    ghost invariant = { λ s. AreLeftOfReached s.marks s.left };
}

impl MarkedNumbers {
    /// A set in which none of `size` numbers is reached.
    pub(crate) fn new(alloc: Global, size: u32) -> Result<MarkedNumbers, Memory>
        ensures { IfOk result (λ reached. reached ≡ none_reached size) }
    {
        Ok(MarkedNumbers {
            marks: Marks::new(alloc, size)?,
            left: Marks::new(alloc, size)?,
            next: 0,
        })
    }

    /// The number that is taken next.
    fn first_left(&self) -> Option<u32>
        ensures left { MatchOption result (NoMarkIsLeft self.now) (IsMarked self.now.left) }
        ensures inside { IfSome result (λ number. number < length self.now.left) }
    {
        let number = self.left.first_from(self.next);
        if number.is_some() {
            return number;
        }
        self.left.first_from(0)
    }

    /// Marks of all numbers that were reached.
    pub(crate) fn into_marks(self) -> Marks
        ensures { result ≡ self.reached }
    {
        self.marks
    }
}

impl ReachedNumbers for MarkedNumbers {
    ghost use Rattle.strategies.specs.Inside.ReachedMarks.{reached_by_marks, room_of_marks};

    ghost reached = { reached_by_marks };

    ghost room = { room_of_marks };

    fn add(&mut self, number: u64) -> Result<(), Memory> {
        if !self.marks.get(number as u32) {
            self.marks.set(number as u32);
            self.left.set(number as u32);
        }
        Ok(())
    }

    fn contains(&self, number: u64) -> bool {
        self.marks.get(number as u32)
    }

    fn take_next(&mut self) -> Result<Option<u64>, Unmade> {
        let Some(number) = self.first_left() else {
            return Ok(None);
        };
        self.left.clear(number);
        self.next = number - number % NEAR;
        Ok(Some(number as u64))
    }

    fn in_order(&self, alloc: Global) -> Result<Vec<u64>, Memory> {
        let mut ordered = Vec::new(alloc);
        let mut from = 0;
        while let Some(number) = self.marks.first_from(from) {
            ordered.push(number as u64)?;
            from = number + 1;
        }
        Ok(ordered)
    }
}
