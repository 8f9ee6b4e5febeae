//! Who makes the rounds in which gaps close: this thread, or several workers.

ghost use Rattle.std.specs.Thread.{IsSync};
ghost use Rattle.std.specs.Prelude.{◌≡◌, ◌*◌, ◌≤◌, length};
ghost use Rattle.gap_values.specs.Inside.Closing.{CanClose, MayClose, IsPartClosed};
ghost use Rattle.gap_values.specs.Inside.Sets.{AreGathered};

use crate::closing::Closing;
use crate::rounds::RoundMaker;
use crate::telling::{add_in_parts, add_tables};
use board_text::{Board, ROW_WORDS};
use classes::ClassNumbers;
use positions::Labels;
use std::marker::Model;
use std::thread::Threads;

/// Makes rounds on this thread.
#[derive(Drop)]
pub struct OnThisThread;

impl<const WORDS: usize> RoundMaker<WORDS> for OnThisThread {
    ghost can_make = { λ s. Unit {0} };

    ghost tables_of = { λ s. 1 };

    fn tables(&self) -> u8 {
        1
    }

    fn close(
        &self,
        board: &Board,
        numbers: &ClassNumbers,
        sets: &[Labels<WORDS>],
        round: u32,
        words: &mut [u32],
        told: &mut [Labels<WORDS>],
    ) -> bool
        requires can_make { Unit {0} }
        requires can_close { CanClose WORDS board.now numbers.now sets.now round }
        requires part { MayClose board.now round 0 1 words.old told.old }
        ensures { IsPartClosed board.now sets.now round 0 1 words.old words.new told.new result }
    {
        Closing::of(board, numbers, sets, round).close_gaps(0, words, told)
    }

    fn add(&self, told: &[Labels<WORDS>], sets: &mut [Labels<WORDS>])
        requires can_make { Unit {0} }
        requires narrow { WORDS ≤ ROW_WORDS }
        requires told { length told.now ≡ 1 * length sets.old }
        ensures { AreGathered 1 (length sets.old) 0 told.now sets.old sets.new }
    {
        let lists = sets.len();
        add_tables(1, lists, told, 0, sets);
    }
}

/// Makes rounds in parts, at most one for each of these workers. Contracts see their number.
#[derive(Drop)]
pub struct ByWorkers<'a, R: Threads + Sync> {
    rt: &'a R,
    workers: u8,
}

impl<'a, R: Threads + Sync> Model for ByWorkers<'a, R> {
    ghost use Rattle.std.specs.Prelude.{ℕ, ◌≤◌};

    ghost Value = { ℕ };

    ghost view = { λ s. s.workers };

    ghost invariant = { λ s. 1 ≤ s.workers };
}

/// At most this number of `workers`, each a thread. One worker is the caller's thread, and starts
/// none.
pub fn by_workers<R: Threads + Sync>(rt: &R, workers: u8) -> ByWorkers<'_, R>
    requires { 1 ≤ workers }
    ensures { result ≡ workers }
{
    ByWorkers { rt, workers }
}

impl<const WORDS: usize, R: Threads + Sync> RoundMaker<WORDS> for ByWorkers<'_, R> {
    ghost can_make = { λ s. IsSync R.row };

    ghost tables_of = { λ s. s };

    fn tables(&self) -> u8 {
        self.workers
    }

    fn close(
        &self,
        board: &Board,
        numbers: &ClassNumbers,
        sets: &[Labels<WORDS>],
        round: u32,
        words: &mut [u32],
        told: &mut [Labels<WORDS>],
    ) -> bool
        requires can_make { IsSync R.row }
        requires can_close { CanClose WORDS board.now numbers.now sets.now round }
        requires part { MayClose board.now round 0 self.now words.old told.old }
        ensures { IsPartClosed board.now sets.now round 0 self.now words.old words.new told.new
            result }
    {
        let closing = Closing::of(board, numbers, sets, round);
        closing.close_in_parts(self.rt, self.workers as usize, 0, words, told)
    }

    fn add(&self, told: &[Labels<WORDS>], sets: &mut [Labels<WORDS>])
        requires can_make { IsSync R.row }
        requires narrow { WORDS ≤ ROW_WORDS }
        requires told { length told.now ≡ self.now * length sets.old }
        ensures { AreGathered self.now (length sets.old) 0 told.now sets.old sets.new }
    {
        add_in_parts(self.rt, self.workers as usize, told, sets);
    }
}
