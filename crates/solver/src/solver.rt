//! The solver: a board whose values are found round by round.
//!
//! `first_filed`, `next_filed`, `first_source` and `next_source` go through lists one by one, for
//! callers; no command does.

ghost use Rattle.std.specs.Prelude.{◌≡◌, ℕ, suc, ◌+◌, ◌<◌, ◌≤◌, ◌↔◌, true, false, length, map};
ghost use Rattle.std.specs.Prelude.{slice_get, IfOk, IfErr, Err, Some, None};
ghost use Rattle.positions.specs.declared.value.Value.TheVariants.{Finite};
ghost use Rattle.positions.specs.Value.{HasValue};
ghost use Rattle.positions.specs.Ranks.{configurations};
ghost use Rattle.positions.specs.Gaps.{IsDominator};
ghost use Rattle.graphs.specs.Numbered.{numbered, graph_of, configuration_of, Ordered};
ghost use Rattle.positions.specs.Counts.{HasSize, IsSmallest};
ghost use Rattle.solver.specs.Words.{value_of_word, AreFirstCounts, AreFirstValues, AreValueWords};
ghost use Rattle.solver.specs.Ending.{IsRoundEnd};
ghost use Rattle.solver.specs.Solving.{IsSolving, IsFresh, HasFiled, HasFoundNone, bucket, source};
ghost use Rattle.solver.specs.Solving.{AnswerLasts, AnswerForever, to_strike};

use crate::end::RoundEnd;
use crate::fault::SolveFault;
use crate::next_value::{ByStrikes, FromEnd, NextValue};
use crate::progress::Progress;
use crate::source_walk::SourceWalk;
use crate::stage::Stage;
use crate::values::Values;
use crate::word::value_of;
use board_text::{Board, Memory};
use graphs::{ByRanks, Graph, Numbering};
use index_lists::ListStore;
use positions::{MAX_CONFIGURATIONS, Space, is_small};
use std::alloc::Global;
use std::marker::Model;

/// A board whose values are found round by round, by the numbers `N` of its configurations.
///
/// It holds no board: contracts see it as the board that it was opened for and what the numbers of
/// its configurations stand for, with the configurations that are filed and those that aren't. No
/// call but `open`, `of` and `to_strike` takes memory.
#[derive(Drop)]
pub struct Solver<S: ListStore, N: Numbering = ByRanks> {
    stage: Stage<S, N>,
    done: bool,
}

impl<S: ListStore, N: Numbering> Model for Solver<S, N> {
    ghost use Rattle.std.specs.Prelude.{◌-◌};
    ghost use Rattle.solver.specs.Solving.{Solving};
    ghost use Rattle.solver.specs.Inside.Stage.{IsState, as_solving};

    ghost Value = { Solving };

    ghost view = { λ s. as_solving s.stage s.done };

    ghost invariant = { λ s. IsState s.stage (s.stage.value - 1) s.done };
}

impl<S: ListStore + Drop> Solver<S> {
    /// A solver of `board` whose numbers are the ranks of configurations. It has filed the
    /// configurations of value 0, in ascending rank.
    pub fn open(alloc: Global, board: &Board) -> Result<Solver<S>, SolveFault>
        ensures fresh { IfOk result (λ solver. IsFresh (numbered board.now Ordered) solver) }
        ensures too_large { (result ≡ Err SolveFault.TooLarge)
            ↔ (MAX_CONFIGURATIONS < configurations board.now) }
        ensures no_worker { result ≡ Err SolveFault.Worker → ⊥ }
    {
        if !is_small(board) {
            return Err(SolveFault::TooLarge);
        }
        Ok(Solver::<S>::of(alloc, board)?)
    }
}

impl<S: ListStore + Drop, N: Numbering> Solver<S, N> {
    /// A solver of `board`, which has at most `MAX_CONFIGURATIONS` configurations, by the numbers
    /// `N`. It has filed the configurations of value 0, in ascending order.
    pub fn of(alloc: Global, board: &Board) -> Result<Solver<S, N>, Memory>
        requires few { configurations board.now ≤ MAX_CONFIGURATIONS }
        ensures { IfOk result (λ solver. IsFresh (numbered board.now N.numbering) solver) }
    {
        let graph = Graph::<N>::of(alloc, board)?;
        let mut stage = Stage::<S, N>::open(alloc, graph)?;
        stage.begin_next_value();
        Ok(Solver { stage, done: false })
    }
}

impl<S: ListStore> Solver<S> {
    /// The space of the board.
    pub fn space(&self) -> &Space
        ensures value { result.now ≡ self.now.game.board }
        ensures ordered { self.now.game.numbering ≡ Ordered }
    {
        self.stage.graph().numbers().space()
    }

    /// The smallest pebble that dominates all others at the configuration of `rank`, if one does. A
    /// lone pebble does if it holds a label.
    pub fn dominator(&self, rank: u32) -> Option<u8>
        requires { rank < (graph_of self.now.game).configurations }
        ensures { IsSmallest (IsDominator self.now.game.board
            (configuration_of self.now.game rank)) result }
    {
        let space = self.space();
        match self.stage.graph().answered_gap(rank) {
            Some(gap) => Some(space.gap_pebble(gap)),
            None => None,
        }
    }
}

impl<S: ListStore, N: Numbering> Solver<S, N> {
    /// Files all configurations of the next value, or finds that none has it.
    pub fn round(&mut self) -> Progress
        ensures game { self.new.game ≡ self.old.game }
        ensures after_done { self.old.is_done ≡ true
            → (result ≡ Progress.Done) × (self.new ≡ self.old) }
        ensures filed { (n : ℕ) → result ≡ Progress.Filed n → HasFiled self.old self.new n }
        ensures none { result ≡ Progress.Done → HasFoundNone self.old self.new }
        ensures filed_before { (value : ℕ) → value ≤ self.old.rounds
            → bucket self.new value ≡ bucket self.old value }
        ensures kept { IsSolving self.new }
    {
        self.file_next(&ByStrikes)
    }

    /// Files the configurations that the finished round `end` won, in the order in which it won
    /// them, and takes over its counts; `Done` if it won none.
    pub fn file_round<E: RoundEnd>(&mut self, end: &E) -> Progress
        requires { IsRoundEnd self.old (E.won_list end.now) (E.counts end.now) }
        ensures game { self.new.game ≡ self.old.game }
        ensures after_done { self.old.is_done ≡ true
            → (result ≡ Progress.Done) × (self.new ≡ self.old) }
        ensures filed { (n : ℕ) → result ≡ Progress.Filed n → HasFiled self.old self.new n }
        ensures none { result ≡ Progress.Done → HasFoundNone self.old self.new }
        ensures filed_before { (value : ℕ) → value ≤ self.old.rounds
            → bucket self.new value ≡ bucket self.old value }
        ensures order { (n : ℕ) → result ≡ Progress.Filed n
            → bucket self.new (suc self.old.rounds) ≡ E.won_list end.now }
        ensures kept { IsSolving self.new }
    {
        self.file_next(&FromEnd(end))
    }

    /// Files all configurations of the next value in the way `by`, or finds that none has it.
    fn file_next<B: NextValue>(&mut self, by: &B) -> Progress
        requires { self.old.is_done ≡ false → B.serves by.now self.old }
        ensures game { self.new.game ≡ self.old.game }
        ensures after_done { self.old.is_done ≡ true
            → (result ≡ Progress.Done) × (self.new ≡ self.old) }
        ensures filed { (n : ℕ) → result ≡ Progress.Filed n → HasFiled self.old self.new n }
        ensures none { result ≡ Progress.Done → HasFoundNone self.old self.new }
        ensures filed_before { (value : ℕ) → value ≤ self.old.rounds
            → bucket self.new value ≡ bucket self.old value }
        ensures order { (n : ℕ) → result ≡ Progress.Filed n
            → B.files by.now (bucket self.new (suc self.old.rounds)) }
        ensures kept { IsSolving self.new }
    {
        if self.done {
            return Progress::Done;
        }
        by.file(&mut self.stage);
        let filed = self.stage.filed();
        if filed == 0 {
            self.done = true;
            return Progress::Done;
        }
        self.stage.begin_next_value();
        Progress::Filed(filed)
    }

    /// Whether a round has found that no configuration has the next value.
    pub fn done(&self) -> bool
        ensures { result ≡ self.now.is_done }
    {
        self.done
    }

    /// The number of rounds that have filed something: each value of at most this number is filed.
    pub fn round_number(&self) -> u32
        ensures value { result ≡ self.now.rounds }
        ensures below { result < (graph_of self.now.game).configurations }
        ensures kept { IsSolving self.now }
    {
        self.stage.value() - 1
    }

    /// The graph of the numbers of the board's configurations and gaps.
    pub fn graph(&self) -> &Graph<N>
        ensures { result.now ≡ self.now.game }
    {
        self.stage.graph()
    }

    /// The value of the configuration with the number `rank`,
    /// if it is at most the number of rounds.
    pub fn value_at(&self, rank: u32) -> Option<u32>
        requires { rank < (graph_of self.now.game).configurations }
        ensures { (value : ℕ) → (result ≡ Some value)
            ↔ ((value ≤ self.now.rounds) × HasValue self.now.game.board
            (configuration_of self.now.game rank) (Finite value)) }
    {
        value_of(self.stage.word(rank))
    }

    /// The number of answers of `gap` that lead to a value of at least the number of rounds; once
    /// the rounds are done, to the value Forever.
    pub fn count_of(&self, gap: u32) -> u32
        requires { gap < (graph_of self.now.game).gaps }
        ensures before { self.now.is_done ≡ false
            → HasSize (AnswerLasts self.now.game gap self.now.rounds) result }
        ensures after { self.now.is_done ≡ true → HasSize (AnswerForever self.now.game gap) result }
    {
        self.stage.count(gap)
    }

    /// The counts of all gaps, in their order, with which a round begins.
    pub fn counts(&self) -> &[u32]
        requires { self.now.is_done ≡ false }
        ensures size { length result.now ≡ (graph_of self.now.game).gaps }
        ensures counts { AreFirstCounts self.now result.now }
    {
        self.stage.counts()
    }

    /// The words of all configurations, by rank, with which a round begins.
    /// `value_of` reads the value of each.
    pub fn words(&self) -> &[u32]
        ensures size { length result.now ≡ (graph_of self.now.game).configurations }
        ensures values { AreFirstValues self.now (map value_of_word result.now) }
    {
        self.stage.words()
    }

    /// The first configuration that is filed at `value`.
    pub fn first_filed(&self, value: u32) -> Option<u32>
        ensures first { result ≡ slice_get (bucket self.now value) 0 }
        ensures kept { IsSolving self.now }
    {
        self.stage.first_filed(value)
    }

    /// The configuration after that of `rank`, among those filed at
    /// the same value. One that isn't filed has none.
    pub fn next_filed(&self, rank: u32) -> Option<u32>
        requires { rank < (graph_of self.now.game).configurations }
        ensures behind { (value : ℕ) → (index : ℕ)
            → slice_get (bucket self.now value) index ≡ Some rank
            → result ≡ slice_get (bucket self.now value) (index + 1) }
        ensures not_filed { ((value : ℕ) → (index : ℕ)
            → slice_get (bucket self.now value) index ≡ Some rank → ⊥)
            → result ≡ None }
    {
        self.stage.next_filed(rank)
    }

    /// The number of configurations that were filed last: those of the solver's value, which is the
    /// number of rounds. A round strikes no others.
    pub fn last_filed(&self) -> u32
        ensures { result ≡ length (bucket self.now self.now.rounds) }
    {
        self.stage.filed_before()
    }

    /// The configurations that a round at the solver's value strikes: those of that value that are
    /// answers in a gap, in order of filing.
    pub fn to_strike(&self, alloc: Global) -> Result<Vec<u32>, Memory>
        ensures ranks { IfOk result (λ ranks. ranks.items ≡ to_strike self.now) }
        ensures kept { IsSolving self.now }
    {
        self.stage.due(alloc)
    }

    /// The members of `gap` that have no value of at most
    /// the number of rounds, one after the other.
    pub fn sources(&self, gap: u32) -> SourceWalk<'_, N>
        requires { gap < (graph_of self.now.game).gaps }
        ensures { result ≡ source self.now gap }
    {
        self.stage.sources(gap)
    }

    /// The first member of `gap` that has no value of at most the number of rounds.
    pub fn first_source(&self, gap: u32) -> Option<u32>
        requires { gap < (graph_of self.now.game).gaps }
        ensures first { result ≡ slice_get (source self.now gap) 0 }
    {
        let mut members = self.sources(gap);
        members.take_next()
    }

    /// The member of `gap` after that of `rank`, among those that have no value of at most the
    /// number of rounds. A configuration that isn't one of these has none.
    pub fn next_source(&self, gap: u32, rank: u32) -> Option<u32>
        requires gap { gap < (graph_of self.now.game).gaps }
        requires rank { rank < (graph_of self.now.game).configurations }
        ensures behind { (index : ℕ) → slice_get (source self.now gap) index ≡ Some rank
            → result ≡ slice_get (source self.now gap) (index + 1) }
        ensures not_listed { ((index : ℕ) → slice_get (source self.now gap) index ≡ Some rank → ⊥)
            → result ≡ None }
    {
        let mut members = self.stage.sources(gap);
        while let Some(member) = members.take_next() {
            if member == rank {
                return members.take_next();
            }
        }
        None
    }
}

/// A solver that isn't done.
#[derive(Drop)]
pub struct Unfinished<S: ListStore, N: Numbering = ByRanks> {
    /// The solver, as it was.
    pub solver: Solver<S, N>,
}

impl<S: ListStore + Drop> Solver<S> {
    /// The values of the board, once a round has found that no configuration has the next one.
    pub fn finish(self) -> Result<Values, Unfinished<S>>
        ensures values { IfOk result (λ values. (self.is_done ≡ true)
            × (values ≡ self.game.board)) }
        ensures unfinished { IfErr result
            (λ unfinished. (self.is_done ≡ false) × (unfinished.solver ≡ self)) }
    {
        if !self.done {
            return Err(Unfinished { solver: self });
        }
        Ok(self.close())
    }

    /// The values of a solver that is done.
    fn close(self) -> Values
        requires { self.is_done ≡ true }
        ensures { result ≡ self.game.board }
    {
        let Solver { stage, .. } = self;
        let (graph, value, words, room) = stage.into_parts();
        Values::new(graph.into_numbers(), words, value, room)
    }

    /// The values of the board, after all rounds that it takes.
    pub fn solve(self) -> Values
        ensures { result ≡ self.game.board }
    {
        self.after_all_rounds().close()
    }
}

impl<S: ListStore + Drop, N: Numbering> Solver<S, N> {
    /// The words of the values of the board by the solver's numbers, once a round has found that no
    /// configuration has the next one: for each number the value, or `OPEN` for Forever.
    pub fn finish_words(self) -> Result<Vec<u32>, Unfinished<S, N>>
        ensures values { IfOk result (λ words. (self.is_done ≡ true)
            × AreValueWords self.game words.items) }
        ensures unfinished { IfErr result (λ unfinished.
            (self.is_done ≡ false) × (unfinished.solver ≡ self)) }
    {
        if !self.done {
            return Err(Unfinished { solver: self });
        }
        let Solver { stage, .. } = self;
        let (_, _, words, _) = stage.into_parts();
        Ok(words)
    }

    /// The solver after all rounds that the board takes.
    fn after_all_rounds(self) -> Solver<S, N>
        ensures game { result.game ≡ self.game }
        ensures done { result.is_done ≡ true }
    {
        let mut solver = self;
        while !solver.done() {
            solver.round();
        }
        solver
    }
}
