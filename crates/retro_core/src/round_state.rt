//! A round as a machine on plain data, one step after the other.
//!
//! No command runs it. The history of a shared round is a run
//! of this machine, and tests make its steps.

ghost use Rattle.std.specs.Prelude.{◌≡◌, ◌+◌, ◌<◌, ◌↔◌, true, false, length, slice_index};
ghost use Rattle.std.specs.Prelude.{slice_index_or, None, Some, IfOk, IfErr};
ghost use Rattle.solver.specs.Solving.{IsSolving};
ghost use Rattle.retro_core.specs.Round.{round_graph, seat_at, IsOpening, IsLawful, round_of};
ghost use Rattle.retro_core.specs.Stepping.{Does, IsAllowed, LacksSeat, Refuses};

use crate::seat::Seat;
use crate::step::{Seen, Step, StepFault};
use board_text::Memory;
use gap_values::OPEN;
use graphs::{ByRanks, Numbering};
use index_lists::ListStore;
use solver::{Solver, value_of};
use std::alloc::Global;
use std::marker::Model;
use std::mem;

/// A round of a solver in which seats make one step after the other, in any order.
///
/// Seats have numbers in the order in which they were made. The first has all to strike and the
/// whole width.
/// Contracts see the words of the round and all its seats;
/// whatever the steps were, these are lawful.
#[derive(Drop)]
pub struct RoundState<'a, S: ListStore, N: Numbering = ByRanks> {
    alloc: Global,
    solver: &'a Solver<S, N>,
    width: u32,
    counts: Vec<u32>,
    /// The value of each configuration that has one, else `OPEN`.
    words: Vec<u32>,
    seats: Vec<Seat>,
}

impl<'a, S: ListStore, N: Numbering> Model for RoundState<'a, S, N> {
    ghost use Rattle.std.specs.Prelude.{map};
    ghost use Rattle.solver.specs.Solving.{IsSolving};
    ghost use Rattle.solver.specs.Words.{value_of_word};
    ghost use Rattle.retro_core.specs.Round.{Round, IsLawful, round_of};

    ghost Value = { Round };

    ghost view = { λ s. round_of s.solver.now s.width s.counts.items
        (map value_of_word s.words.items) s.seats.items };

    ghost invariant = { λ s. IsSolving s.solver.now
        × IsLawful (round_of s.solver.now s.width s.counts.items
        (map value_of_word s.words.items) s.seats.items) };
}

impl<'a, S: ListStore, N: Numbering> RoundState<'a, S, N> {
    /// Opens a round of the width `width` at the value of `solver`.
    pub fn open(
        alloc: Global,
        solver: &'a Solver<S, N>,
        width: u32,
    ) -> Result<RoundState<'a, S, N>, Memory>
        requires going { solver.now.is_done ≡ false }
        requires some_width { 0 < width }
        ensures { IfOk result (λ round. IsOpening solver.now width round) }
    {
        let counts = Vec::from_slice(alloc, solver.counts())?;
        let words = Vec::from_slice(alloc, solver.words())?;
        let todo = solver.to_strike(alloc)?;
        let mut seats = Vec::with_capacity(alloc, 1)?;
        seats.push(Seat::first(alloc, width, todo))?;
        Ok(RoundState {
            alloc,
            solver,
            width,
            counts,
            words,
            seats,
        })
    }

    /// Makes `step`, or returns the first reason why it can't be made and leaves all as it was.
    pub fn apply(&mut self, step: Step) -> Result<Seen, StepFault>
        ensures done { IfOk result (λ seen. Does self.old step seen self.new) }
        ensures refused { IfErr result
            (λ fault. Refuses self.old step fault × (self.new ≡ self.old)) }
        ensures lawful { IsLawful self.new }
    {
        if self.lacks_seat(step) {
            return Err(StepFault::NoSuchSeat);
        }
        match step {
            Step::Strike(seat) => self.strike(seat),
            Step::Try(seat) => self.claim(seat),
            Step::Split(seat) => self.split(seat),
            Step::Join { into, from } => self.join(into, from),
        }
    }

    /// Whether a number in `step` is that of no seat, or a seat would be joined with itself.
    fn lacks_seat(&self, step: Step) -> bool
        ensures lacks { (result ≡ true) ↔ LacksSeat self.now step }
        ensures solving { IsSolving self.now.solving }
        ensures lawful { IsLawful self.now }
    {
        match step {
            Step::Strike(seat) | Step::Try(seat) | Step::Split(seat) => self.seat_width(seat) == 0,
            Step::Join { into, from } => {
                self.seat_width(into) == 0 || self.seat_width(from) == 0 || into == from
            }
        }
    }

    fn strike(&mut self, seat: usize) -> Result<Seen, StepFault>
        requires { 0 < (seat_at self.old seat).width }
        ensures done { IfOk result (λ seen. Does self.old (Step.Strike seat) seen self.new) }
        ensures refused { IfErr result
            (λ fault. Refuses self.old (Step.Strike seat) fault × (self.new ≡ self.old)) }
    {
        let todo = self.seats[seat].todo();
        if todo.is_empty() {
            return Err(StepFault::NothingToStrike);
        }
        let config = todo[0];
        let Some(gap) = self.solver.graph().answered_gap(config) else {
            // A configuration to strike is an answer in a gap.
            unreachable!()
        };
        let count = self.counts[gap as usize];
        self.seats[seat].strike(self.solver, gap, count)?;
        self.counts[gap as usize] = count - 1;
        let closed = if count == 1 { Some(gap) } else { None };
        Ok(Seen::Struck { config, closed })
    }

    fn claim(&mut self, seat: usize) -> Result<Seen, StepFault>
        requires { 0 < (seat_at self.old seat).width }
        ensures done { IfOk result (λ seen. Does self.old (Step.Try seat) seen self.new) }
        ensures refused { IfErr result
            (λ fault. Refuses self.old (Step.Try seat) fault × (self.new ≡ self.old)) }
    {
        let next = self.solver.round_number() + 1;
        let owed = self.seats[seat].owed();
        if owed.is_empty() {
            return Err(StepFault::NothingOwed);
        }
        let config = owed[0];
        let won = self.words[config as usize] == OPEN;
        self.seats[seat].claim(won)?;
        if won {
            self.words[config as usize] = next;
        }
        Ok(Seen::Tried { config, won })
    }

    fn split(&mut self, seat: usize) -> Result<Seen, StepFault>
        requires { 0 < (seat_at self.old seat).width }
        ensures done { IfOk result (λ seen. Does self.old (Step.Split seat) seen self.new) }
        ensures refused { IfErr result
            (λ fault. Refuses self.old (Step.Split seat) fault × (self.new ≡ self.old)) }
    {
        if self.seat_width(seat) == 1 {
            return Err(StepFault::TooNarrow);
        }
        let half = self.seats[seat].new_half(self.alloc)?;
        let new_seat = self.seats.len();
        self.seats.push(half).map_err(Memory::from)?;
        self.seats[seat].keep_half();
        Ok(Seen::Parted { seat: new_seat })
    }

    fn join(&mut self, into: usize, from: usize) -> Result<Seen, StepFault>
        requires { IsAllowed self.old (Step.Join into from) }
        ensures done { IfOk result (λ seen. Does self.old (Step.Join into from) seen self.new) }
        ensures refused { IfErr result
            (λ fault. Refuses self.old (Step.Join into from) fault × (self.new ≡ self.old)) }
    {
        let other = mem::replace(&mut self.seats[from], Seat::spent(self.alloc));
        if self.seats[into].absorb(&other).is_err() {
            self.seats[from] = other;
            return Err(StepFault::Memory);
        }
        Ok(Seen::Joined)
    }

    /// The width of `seat`, 0 for one that was joined into
    /// another and for a number that no seat has.
    fn seat_width(&self, seat: usize) -> u32
        ensures value { result ≡ (seat_at self.now seat).width }
        ensures solving { IsSolving self.now.solving }
        ensures lawful { IsLawful self.now }
    {
        if seat < self.seats.len() {
            self.seats[seat].width()
        } else {
            0
        }
    }

    /// The number of seats that were ever made, those that were joined into others included.
    pub fn seats(&self) -> usize
        ensures { result ≡ length self.now.seats }
    {
        self.seats.len()
    }

    /// The configurations that `seat` has to strike.
    pub fn todo(&self, seat: usize) -> &[u32]
        requires { seat < length self.now.seats }
        ensures { result.now ≡ (seat_at self.now seat).todo }
    {
        self.seats[seat].todo()
    }

    /// The configurations that `seat` owes.
    pub fn owed(&self, seat: usize) -> &[u32]
        requires { seat < length self.now.seats }
        ensures { result.now ≡ (seat_at self.now seat).owed }
    {
        self.seats[seat].owed()
    }

    /// The configurations that `seat` has won.
    pub fn won(&self, seat: usize) -> &[u32]
        requires { seat < length self.now.seats }
        ensures { result.now ≡ (seat_at self.now seat).won }
    {
        self.seats[seat].won()
    }

    /// The width of `seat`, 0 for one that was joined into another.
    pub fn width(&self, seat: usize) -> u32
        requires { seat < length self.now.seats }
        ensures value { result ≡ (seat_at self.now seat).width }
        ensures solving { IsSolving self.now.solving }
        ensures lawful { IsLawful self.now }
    {
        self.seats[seat].width()
    }

    /// The number of answers of `gap` that lead above the round's value
    /// or to a configuration that a seat has to strike.
    pub fn count_of(&self, gap: u32) -> u32
        requires { gap < (round_graph self.now).gaps }
        ensures { result ≡ slice_index self.now.counts gap }
    {
        self.counts[gap as usize]
    }

    /// The value of the configuration of `rank`, if it has one of
    /// at most the round's or has won the next one.
    pub fn value_at(&self, rank: u32) -> Option<u32>
        requires { rank < (round_graph self.now).configurations }
        ensures { result ≡ slice_index_or self.now.values rank None }
    {
        value_of(self.words[rank as usize])
    }
}
