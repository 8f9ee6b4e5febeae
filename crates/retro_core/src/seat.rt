//! A seat of the machine.

ghost use Rattle.std.specs.Prelude.{◌≡◌, ◌+◌, ◌++◌, ◌^◌, ◌<◌, true, false, [], length, is_ok};
ghost use Rattle.std.specs.Prelude.{if◌then◌else◌, IfOk};
ghost use Rattle.graphs.specs.Numbered.{graph_of};
ghost use Rattle.solver.specs.Solving.{source};
ghost use Rattle.retro_core.specs.Round.{spent_seat, seat_struck, seat_tried, seat_kept, seat_new};
ghost use Rattle.retro_core.specs.Round.{seat_joined};

use board_text::Memory;
use graphs::Numbering;
use index_lists::ListStore;
use solver::Solver;
use std::alloc::Global;
use std::marker::Model;

/// A share of a round: a width, and the configurations to strike, owed and won.
///
/// Its lists are plain vectors, since callers read them as slices.
/// Taking the first of a list moves all others.
#[derive(Drop)]
pub(crate) struct Seat {
    width: u32,
    todo: Vec<u32>,
    owed: Vec<u32>,
    won: Vec<u32>,
}

impl Model for Seat {
    ghost use Rattle.retro_core.specs.Round.{PlainSeat};

    ghost Value = { PlainSeat };

    ghost view = { λ s.
        record { width = s.width; todo = s.todo.items; owed = s.owed.items; won = s.won.items } };
}

impl Seat {
    /// A seat with all of a round's width, `width`, and the configurations `todo` to strike.
    pub(crate) fn first(alloc: Global, width: u32, todo: Vec<u32>) -> Seat
        ensures { result ≡ record { width = width; todo = todo.items; owed = []; won = [] } }
    {
        Seat {
            width,
            todo,
            owed: Vec::new(alloc),
            won: Vec::new(alloc),
        }
    }

    /// A seat of width 0 with empty lists.
    pub(crate) fn spent(alloc: Global) -> Seat
        ensures { result ≡ spent_seat }
    {
        Seat::first(alloc, 0, Vec::new(alloc))
    }

    pub(crate) fn width(&self) -> u32
        ensures { result ≡ self.now.width }
    {
        self.width
    }

    pub(crate) fn todo(&self) -> &[u32]
        ensures { result.now ≡ self.now.todo }
    {
        &self.todo
    }

    pub(crate) fn owed(&self) -> &[u32]
        ensures { result.now ≡ self.now.owed }
    {
        &self.owed
    }

    pub(crate) fn won(&self) -> &[u32]
        ensures { result.now ≡ self.now.won }
    {
        &self.won
    }

    /// Strikes the first configuration to strike,
    /// and owes the open members of `gap` if `count` is 1.
    pub(crate) fn strike<S: ListStore, N: Numbering>(
        &mut self,
        solver: &Solver<S, N>,
        gap: u32,
        count: u32,
    ) -> Result<(), Memory>
        requires some { 0 < length self.old.todo }
        requires gap { gap < (graph_of solver.now.game).gaps }
        ensures seat { self.new
            ≡ (if is_ok result then seat_struck solver.now gap count self.old else self.old) }
        ensures memory { is_ok result ≡ false → count ≡ 1 }
    {
        if count == 1 {
            owe_members(&mut self.owed, solver, gap)?;
        }
        self.todo.remove(0);
        Ok(())
    }

    /// Claims the first owed configuration: takes it off, and wins it if `is_open`.
    pub(crate) fn claim(&mut self, is_open: bool) -> Result<(), Memory>
        requires { 0 < length self.old.owed }
        ensures seat { self.new ≡ (if is_ok result then seat_tried is_open self.old else self.old) }
        ensures memory { is_ok result ≡ false → is_open ≡ true }
    {
        let first = self.owed[0];
        if is_open {
            self.won.push(first)?;
        }
        self.owed.remove(0);
        Ok(())
    }

    /// The new seat that takes its half when this one is split.
    pub(crate) fn new_half(&self, alloc: Global) -> Result<Seat, Memory>
        ensures { IfOk result (λ seat. seat ≡ seat_new self.now) }
    {
        let kept = self.todo.len() - self.todo.len() / 2;
        let half = Vec::from_slice(alloc, &self.todo[kept..])?;
        Ok(Seat::first(alloc, self.width / 2, half))
    }

    /// Keeps the half that stays when this seat is split.
    pub(crate) fn keep_half(&mut self)
        ensures { self.new ≡ seat_kept self.old }
    {
        let kept = self.todo.len() - self.todo.len() / 2;
        self.todo.truncate(kept);
        self.width -= self.width / 2;
    }

    /// Takes over the width and the lists of `other`.
    pub(crate) fn absorb(&mut self, other: &Seat) -> Result<(), Memory>
        requires { self.old.width + other.now.width < 2 ^ 32 }
        ensures { self.new ≡ (if is_ok result then seat_joined self.old other.now else self.old) }
    {
        let todo = self.todo.len();
        let owed = self.owed.len();
        self.todo.extend_from_slice(&other.todo)?;
        if self.owed.extend_from_slice(&other.owed).is_err() {
            self.todo.truncate(todo);
            return Err(Memory);
        }
        if self.won.extend_from_slice(&other.won).is_err() {
            self.owed.truncate(owed);
            self.todo.truncate(todo);
            return Err(Memory);
        }
        self.width += other.width;
        Ok(())
    }
}

/// Appends the open members of `gap` to `owed`.
fn owe_members<S: ListStore, N: Numbering>(
    owed: &mut Vec<u32>,
    solver: &Solver<S, N>,
    gap: u32,
) -> Result<(), Memory>
    requires { gap < (graph_of solver.now.game).gaps }
    ensures { owed.new.items ≡ (if is_ok result then owed.old.items
        ++ source solver.now gap else owed.old.items) }
{
    let before = owed.len();
    let mut members = solver.sources(gap);
    while let Some(rank) = members.take_next() {
        if owed.push(rank).is_err() {
            owed.truncate(before);
            return Err(Memory);
        }
    }
    Ok(())
}
