//! A set of reached numbers, as a list in the order in which they were reached.

ghost use Rattle.std.specs.Prelude.{◌≡◌, ◌≢◌, AllPairs, slice_get};
ghost use Rattle.strategies.specs.Inside.ReachedLists.{none_listed};

use crate::reached_numbers::ReachedNumbers;
use crate::unmade::Unmade;
use board_text::Memory;
use indexmap::IndexSet;
use std::alloc::Global;
use std::marker::Model;

/// The numbers that were reached, each once, in the order in which they were. They are taken in
/// that order.
#[derive(Drop)]
pub(crate) struct ListedNumbers {
    numbers: IndexSet<u64>,
    /// The number of those that were taken.
    taken: usize,
    /// The number of those that there may be when one is taken.
    most: usize,
}

impl Model for ListedNumbers {
    ghost use Rattle.strategies.specs.Inside.ReachedLists.{ReachedList, AreTakenOf};

    ghost Value = { ReachedList };

    ghost view = { λ s. record { numbers = s.numbers.keys; taken = s.taken; most = s.most } };

    ghost invariant = { λ s. AreTakenOf s.numbers.keys s.taken };
}

impl ListedNumbers {
    /// A set of no numbers, of which there may be `most`.
    pub(crate) fn new(alloc: Global, most: usize) -> ListedNumbers
        ensures { result ≡ none_listed most }
    {
        ListedNumbers {
            numbers: IndexSet::new(alloc),
            taken: 0,
            most,
        }
    }

    /// The number that is taken next.
    fn first_left(&self) -> Option<u64>
        ensures number { result ≡ slice_get self.now.numbers self.now.taken }
        ensures once { AllPairs (λ first second. first ≢ second) self.now.numbers }
    {
        self.numbers.as_slice().get(self.taken).copied()
    }
}

impl ReachedNumbers for ListedNumbers {
    ghost use Rattle.strategies.specs.Inside.ReachedLists.{reached_by_list, room_of_list};

    ghost reached = { reached_by_list };

    ghost room = { room_of_list };

    fn add(&mut self, number: u64) -> Result<(), Memory> {
        match self.numbers.insert(number) {
            Ok(_) => Ok(()),
            Err(_) => Err(Memory),
        }
    }

    fn contains(&self, number: u64) -> bool {
        self.numbers.contains(&number)
    }

    fn take_next(&mut self) -> Result<Option<u64>, Unmade> {
        let Some(number) = self.first_left() else {
            return Ok(None);
        };
        if self.numbers.len() > self.most {
            return Err(Unmade::TooLong);
        }
        self.taken += 1;
        Ok(Some(number))
    }

    fn in_order(&self, alloc: Global) -> Result<Vec<u64>, Memory> {
        let numbers = self.numbers.as_slice();
        let mut ordered = Vec::with_capacity(alloc, numbers.len())?;
        ordered.extend_from_slice(numbers)?;
        ordered.sort_unstable();
        Ok(ordered)
    }
}
