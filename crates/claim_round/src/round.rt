//! A round that threads share, over a table of words.

ghost use Rattle.std.specs.Prelude.{◌≡◌, ℕ, ◌<◌, ◌≤◌, [], length, false, IfOk, IfErr};
ghost use Rattle.index_lists.specs.Lists.{times};
ghost use Rattle.claim_round.specs.Shared.{IsOf, IsOfSameRound, IsSplit, IsJoined, IsClosedBy};
ghost use Rattle.claim_round.specs.Shared.{Finishes};
ghost use Rattle.claim_round.specs.History.{HasHistory, LostWereWon, TellsClosedGaps};
ghost use Rattle.claim_round.specs.Calls.{Opens, HasStruck, HasClaimed};
ghost use Rattle.claim_round.specs.Reasons.{IsReason};

use crate::closed::Closed;
use crate::room::{make_capacity, make_room, owe_members, won_capacity};
use crate::seat::RoundSeat;
use crate::table::{Halves, Hand, Look, Plan, Rule, Strike, Try};
use crate::words::{OPEN, first_words};
use atomic_table::Table;
use board_text::Memory;
use graphs::{ByRanks, Numbering};
use index_lists::ListStore;
use solver::Solver;
use std::alloc::Global;
use std::collections::VecDeque;
use std::marker::Model;

/// A round of a solver at the value that it has reached, over shared words: one for each gap's
/// count, and then one for each configuration.
///
/// A call waits for no other thread. A strike, a claim and a split make one step on one word. A
/// join makes two: the join of the two seats, and a load that changes nothing. Contracts see which
/// table of words it is, and the solver and the width that it was opened with. All calls together
/// have one history, which is a run of the machine (`IsHistory`); each strike and each claim has
/// its index in it. The calls of a seat stand in their order, and after those of the seats that it
/// was split or joined from. No order is promised of the calls of two seats that never met.
#[derive(Drop)]
pub struct SharedRound<'a, S: ListStore, N: Numbering = ByRanks> {
    alloc: Global,
    solver: &'a Solver<S, N>,
    width: u32,
    table: Table<(), Hand, Plan<'a, S, N>, Rule, Global>,
}

impl<'a, S: ListStore, N: Numbering> Model for SharedRound<'a, S, N> {
    ghost use Rattle.claim_round.specs.Shared.{RoundId};

    ghost Value = { RoundId };

    ghost use Rattle.claim_round.specs.Inside.Rounds.{IsRound, round_id};

    ghost view = { λ s. round_id s.table.shared.table_id s.table.shared.key };

    ghost invariant = { λ s. IsRound
        (record { solving = s.solver.now; width = s.width }) s.table.shared.key
        s.table.shared.table_id };
}

/// The result of a strike.
#[derive(Clone, Copy, Debug, Drop, PartialEq, Eq)]
pub struct Struck {
    /// The rank of the configuration that was struck.
    pub config: u32,
    /// The gap, if that was its last live answer: its open members are now owed.
    pub closed: Option<u32>,
}

/// The result of a claim.
#[derive(Clone, Copy, Debug, Drop, PartialEq, Eq)]
pub struct Claim {
    /// The rank of the configuration that was claimed.
    pub config: u32,
    /// Whether it was won by this claim. Else an earlier claim won it, this seat's or another's.
    pub won: bool,
}

/// Why a round was not closed: the first reason that holds.
#[derive(Clone, Copy, Debug, Drop, PartialEq, Eq)]
pub enum Why {
    /// Some of the round's width is with other seats.
    SeatsOut,
    /// The seat has configurations to strike, or owes some.
    WorkLeft,
}

/// A round that was not closed.
#[derive(Drop)]
pub struct NotClosed<'a, S: ListStore, N: Numbering = ByRanks> {
    /// The round, as it was.
    pub round: SharedRound<'a, S, N>,
    /// The seat, as it was.
    pub seat: RoundSeat,
    /// Why it was not closed.
    pub why: Why,
}

impl<'a, S: ListStore, N: Numbering> SharedRound<'a, S, N> {
    /// Opens a round at the value of `solver`. Its first seat has all the configurations to strike
    /// and the whole `width`.
    ///
    /// Beside the words it takes room for the configurations to strike, for the members of one gap,
    /// and for the configurations that the seat may win: the members of one gap for each one to
    /// strike, and no more than there are configurations.
    pub fn open(
        alloc: Global,
        solver: &'a Solver<S, N>,
        width: u32,
    ) -> Result<(SharedRound<'a, S, N>, RoundSeat), Memory>
        requires going { solver.now.is_done ≡ false }
        requires some_width { 0 < width }
        ensures { IfOk result (λ r. Opens solver.now width r.0 r.1) }
    {
        let words = first_words(alloc, solver)?;
        let ranks = solver.to_strike(alloc)?;
        let most = solver.graph().places() as usize;
        let owed = VecDeque::with_capacity(alloc, most)?;
        let won = Vec::with_capacity(alloc, won_capacity(solver, most * ranks.len()))?;
        let todo = VecDeque::from_vec(ranks);
        let plan = Plan { solver, width };
        let (table, seat) = Table::of_words(alloc, words.as_slice(), &plan)?;
        let round = SharedRound {
            alloc,
            solver,
            width,
            table,
        };
        let seat = RoundSeat {
            seat,
            todo,
            owed,
            won,
            width,
        };
        Ok((round, seat))
    }

    /// Strikes the first configuration that `seat` has to strike: one step on the count of the gap
    /// in which it is an answer.
    pub fn strike(&self, seat: &mut RoundSeat) -> Struck
        requires mine { IsOf self.now seat.old }
        requires todo { 0 < length seat.old.view.has.todo }
        requires owed { seat.old.view.has.owed ≡ [] }
        ensures stays { IsOfSameRound seat.old seat.new }
        ensures struck { HasStruck seat.old.view result.config result.closed seat.new.view }
    {
        let Some(config) = seat.todo.pop_front() else {
            // A seat that has something to strike has a first configuration.
            unreachable!();
        };
        let Some(gap) = self.solver.graph().answered_gap(config) else {
            // A configuration to strike is an answer in a gap.
            unreachable!();
        };
        let found = self
            .table
            .shared
            .fetch_sub::<Strike>(&mut seat.seat, gap as usize, 1);
        if found == 1 {
            owe_members(&mut seat.owed, self.solver, gap);
            return Struck {
                config,
                closed: Some(gap),
            };
        }
        Struck {
            config,
            closed: None,
        }
    }

    /// Claims the first configuration that `seat` owes:
    /// one step on its value word, and that single try decides.
    pub fn claim(&self, seat: &mut RoundSeat) -> Claim
        requires mine { IsOf self.now seat.old }
        requires owed { 0 < length seat.old.view.has.owed }
        ensures stays { IsOfSameRound seat.old seat.new }
        ensures claimed { HasClaimed seat.old.view result.config result.won seat.new.view }
    {
        let Some(config) = seat.owed.pop_front() else {
            // A seat that owes something has a first configuration.
            unreachable!();
        };
        let word = self.solver.graph().gaps() as usize + config as usize;
        let next = u64::from(self.solver.round_number()) + 1;
        let found = self
            .table
            .shared
            .compare_exchange::<Try>(&mut seat.seat, word, OPEN, next);
        if found == OPEN {
            seat.won.push_reserved(config);
            return Claim { config, won: true };
        }
        Claim { config, won: false }
    }

    /// Cuts the list to strike and the width of `seat` in two, the larger half first. The owed and
    /// won configurations stay with the first seat. A refusal comes before the step, and gives
    /// `seat` back as it was.
    ///
    /// It takes the room that `open` takes for a seat,
    /// for the half that moves. The first seat keeps its room.
    pub fn split(&self, mut seat: RoundSeat) -> Result<(RoundSeat, RoundSeat), (RoundSeat, Memory)>
        requires mine { IsOf self.now seat }
        requires width { 2 ≤ seat.view.has.width }
        ensures ok { IfOk result (λ r. IsSplit seat r.0 r.1) }
        ensures err { IfErr result (λ r. r.0 ≡ seat) }
    {
        let moved = seat.todo.len() / 2;
        let kept = seat.todo.len() - moved;
        let most = self.solver.graph().places() as usize;
        let Ok(owed) = VecDeque::with_capacity(self.alloc, most) else {
            return Err((seat, Memory));
        };
        let entries = most * moved;
        let Ok(won) = Vec::with_capacity(self.alloc, won_capacity(self.solver, entries)) else {
            return Err((seat, Memory));
        };
        let Ok(todo) = seat.todo.split_off(kept) else {
            return Err((seat, Memory));
        };
        let half = seat.width / 2;
        let other = self.table.shared.split_seat::<Halves>(&mut seat.seat);
        seat.width -= half;
        let new = RoundSeat {
            seat: other,
            todo,
            owed,
            won,
            width: half,
        };
        Ok((seat, new))
    }

    /// Appends the lists of `from` to those of `into`, and adds the widths. A refusal comes before
    /// the step, and gives both seats back as they were.
    ///
    /// Beside the step it makes one load, which changes nothing: by it the contract knows that the
    /// won list has no doubles and that the lists are no longer than they can be.
    ///
    /// The lists of `into` get room for the entries of both seats, and for those that both may win,
    /// which are no more than there are configurations.
    pub fn join(
        &self,
        mut into: RoundSeat,
        from: RoundSeat,
    ) -> Result<RoundSeat, (RoundSeat, RoundSeat, Memory)>
        requires into { IsOf self.now into }
        requires from { IsOf self.now from }
        ensures ok { IfOk result (λ r. IsJoined into from r) }
        ensures apart { IfOk result (λ r. (x : ℕ) → times x r.view.has.won ≤ 1) }
        ensures err { IfErr result (λ r. (r.0 ≡ into) × (r.1 ≡ from)) }
    {
        let most = self.solver.graph().places() as usize;
        let own = into.owed.len() + most * into.todo.len();
        let other = from.won.len() + from.owed.len() + most * from.todo.len();
        if !make_room(&mut into.todo, from.todo.len()) {
            return Err((into, from, Memory));
        }
        if !make_room(&mut into.owed, from.owed.len()) {
            return Err((into, from, Memory));
        }
        let capacity = won_capacity(self.solver, into.won.len() + own + other);
        if !make_capacity(&mut into.won, capacity) {
            return Err((into, from, Memory));
        }
        let RoundSeat {
            seat,
            mut todo,
            mut owed,
            mut won,
            width,
        } = from;
        self.table.shared.join_seat::<Halves>(&mut into.seat, seat);
        self.table.shared.load::<Look>(&mut into.seat, 0);
        let Ok(()) = into.todo.append(&mut todo) else {
            // Room was made for both lists to strike.
            unreachable!();
        };
        let Ok(()) = into.owed.append(&mut owed) else {
            // Room was made for both owed lists.
            unreachable!();
        };
        let Ok(()) = into.won.append(&mut won) else {
            // Room was made for both won lists.
            unreachable!();
        };
        into.width += width;
        Ok(into)
    }

    /// Closes the round, if `seat` has its whole width and nothing left to do.
    ///
    /// The history is then whole: all strikes and claims that were made were told to this seat, or
    /// to one that was joined in.
    pub fn close(self, seat: RoundSeat) -> Result<Closed, NotClosed<'a, S, N>>
        requires mine { IsOf self seat }
        ensures ok { IfOk result (λ c. IsClosedBy self.entry seat c) }
        ensures finished { IfOk result (λ c. Finishes self.entry.key.solving c) }
        ensures history { IfOk result (λ c. HasHistory self.entry.key seat.view.made c) }
        ensures lost { IfOk result (λ c. LostWereWon seat.view.made c.won) }
        ensures closed { IfOk result
            (λ c. TellsClosedGaps self.entry.key.solving seat.view.made c.counts) }
        ensures err { IfErr result (λ n. (n.round ≡ self.entry) × (n.seat ≡ seat)
            × IsReason n.why self.entry seat) }
    {
        if seat.width < self.width {
            return Err(NotClosed {
                round: self,
                seat,
                why: Why::SeatsOut,
            });
        }
        if seat.todo.len() > 0 || seat.owed.len() > 0 {
            return Err(NotClosed {
                round: self,
                seat,
                why: Why::WorkLeft,
            });
        }
        let SharedRound {
            alloc: _,
            solver,
            width: _,
            table,
        } = self;
        let RoundSeat {
            seat,
            todo: _,
            owed: _,
            won,
            width: _,
        } = seat;
        Ok(Closed {
            gaps: solver.graph().gaps() as usize,
            rows: table.close_with(seat),
            won,
        })
    }
}
