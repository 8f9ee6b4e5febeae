//! A set of the numbers of positions that were reached.

ghost use Rattle.std.specs.Prelude.{◌≡◌, ◌↔◌, ◌<◌, IfErr, IfOk, IsTrue, MatchOption};
ghost use Rattle.strategies.specs.Inside.Reached.{AreInOrder, AreReachedWith, HasTooMany};
ghost use Rattle.strategies.specs.Inside.Reached.{IsTakenFrom};
ghost use Rattle.strategies.specs.Inside.Reached.{NoneIsLeft, ReachedBy, Room, HasLessRoom};

use crate::unmade::Unmade;
use board_text::Memory;
use std::alloc::Global;

/// Numbers that were reached, each once, and those of them from which no step was taken yet.
pub(crate) trait ReachedNumbers: Drop {
    ghost reached: { Self → ReachedBy };

    // Which numbers it has room for.
    ghost room: { Self → Room };

    /// Adds `number`, if it isn't among them. It is left then.
    fn add(&mut self, number: u64) -> Result<(), Memory>
        requires { number < (room self.old).bound }
        ensures reached { IfOk result (λ _.
            AreReachedWith (reached self.old) (λ other. other ≡ number) (reached self.new)) }
        ensures room { IfOk result (λ _. room self.new ≡ room self.old) };

    /// Whether `number` is among them.
    fn contains(&self, number: u64) -> bool
        requires { number < (room self.now).bound }
        ensures { IsTrue result ↔ (reached self.now).Among number };

    /// Takes a number from which no step was taken yet, if there is one. The fault is `TooLong`, if
    /// more numbers were reached than there may be.
    fn take_next(&mut self) -> Result<Option<u64>, Unmade>
        ensures taken { IfOk result (λ next. MatchOption next
            (NoneIsLeft (reached self.old) × (self.new ≡ self.old))
            (λ number. IsTakenFrom (reached self.old) number (reached self.new)
            × HasLessRoom (room self.old) (room self.new))) }
        ensures fault { IfErr result
            (HasTooMany (reached self.old) (room self.old).most) };

    /// The numbers that were reached, in ascending order.
    fn in_order(&self, alloc: Global) -> Result<Vec<u64>, Memory>
        ensures { IfOk result (λ ordered. AreInOrder (reached self.now).Among ordered.items) };
}
