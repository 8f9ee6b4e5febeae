//! The part of a round that one worker holds.

ghost use Rattle.std.specs.Prelude.{◌≡◌, length};

use crate::table::Hand;
use atomic_table::Seat;
use std::collections::VecDeque;
use std::marker::Model;

/// A worker's share of a round: a width, and the configurations that it has to strike, owes and
/// has won.
///
/// Only the holder of a seat can make steps: each call on the round takes the seat. A seat that
/// is dropped leaves its round open for good. It has no number: that of a seat which a split makes
/// couldn't be known without a second step.
#[derive(Drop)]
pub struct RoundSeat {
    pub(crate) seat: Seat<(), Hand>,
    pub(crate) todo: VecDeque<u32>,
    pub(crate) owed: VecDeque<u32>,
    pub(crate) won: Vec<u32>,
    pub(crate) width: u32,
}

impl Model for RoundSeat {
    ghost use Rattle.claim_round.specs.Shared.{SeatId};

    ghost Value = { SeatId };

    ghost use Rattle.claim_round.specs.Inside.Seats.{seat_id_of, IsSeated};

    ghost view = { seat_id_of };

    ghost invariant = { IsSeated };
}

impl RoundSeat {
    /// The number of configurations that the seat has to strike.
    pub fn todo(&self) -> u32
        ensures { result ≡ length self.now.view.has.todo }
    {
        self.todo.len() as u32
    }

    /// The number of configurations that the seat owes.
    pub fn owed(&self) -> u32
        ensures { result ≡ length self.now.view.has.owed }
    {
        self.owed.len() as u32
    }

    /// The ranks of the configurations that the seat has won, in the order of its claims.
    pub fn won(&self) -> &[u32]
        ensures { result.now ≡ self.now.view.has.won }
    {
        self.won.as_slice()
    }

    /// The seat's share of the round's width: the number of seats of width 1 that it can be split
    /// into.
    pub fn width(&self) -> u32
        ensures { result ≡ self.now.view.has.width }
    {
        self.width
    }
}
