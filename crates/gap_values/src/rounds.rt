//! The rounds in which gaps close.

ghost use Rattle.std.specs.Prelude.{◌≡◌, ◌*◌, ◌-◌, ◌≤◌, ℕ, IfOk, List, OnErr, OnOk, length};
ghost use Rattle.board_text.specs.PlainBoard.{places};
ghost use Rattle.classes.specs.Numbers.{ways};
ghost use Rattle.console.specs.Watching.{AreStepsTold};
ghost use Rattle.gap_values.specs.Inside.Closing.{CanClose, MayClose, IsPartClosed};
ghost use Rattle.gap_values.specs.Inside.Sets.{AreGapRounds, AreGathered};
ghost use Rattle.gap_values.specs.Inside.OpenWords.{AreClosedFrom, open_below};
ghost use Rattle.gap_values.specs.OpenGaps.{AreOpenCounts};

use crate::closing::OPEN;
use board_text::{Board, Memory, ROW_WORDS};
use classes::ClassNumbers;
use console::Watch;
use positions::Labels;
use std::alloc::Global;

/// The rounds in which the gaps of a board close, with sets of `WORDS` words.
#[derive(Drop)]
pub(crate) struct GapRounds<const WORDS: usize> {
    /// The round of each gap, at its number, or `OPEN`.
    pub(crate) words: Vec<u32>,
    /// For each list of all places but two, the labels with which it is a gap of round 0.
    pub(crate) first: Vec<Labels<WORDS>>,
    /// For each list of all places but two, the labels with which it is a gap of any round.
    pub(crate) closed: Vec<Labels<WORDS>>,
}

/// The largest number of gaps of a board whose values are found.
pub const MAX_GAPS: u32 = 536_870_912;

/// Makes rounds, with sets of `WORDS` words.
pub trait RoundMaker<const WORDS: usize> {
    // The threads that it starts may share what it lends them.
    ghost can_make: { Self → Type 0 };

    /// The number of tables of sets that it tells of closed gaps.
    ghost tables_of: { Self → ℕ };

    /// The number of tables of sets that it tells of closed gaps, at most 255.
    fn tables(&self) -> u8
        requires { can_make self.now }
        ensures value { result ≡ tables_of self.now }
        ensures some { 1 ≤ result };

    /// Closes in `round` all open gaps of `board`, whose words are `words`, that are shut by these
    /// `sets`, and tells the tables `told` of them alone. Returns whether there are any.
    fn close(
        &self,
        board: &Board,
        numbers: &ClassNumbers,
        sets: &[Labels<WORDS>],
        round: u32,
        words: &mut [u32],
        told: &mut [Labels<WORDS>],
    ) -> bool
        requires can_make { can_make self.now }
        requires can_close { CanClose WORDS board.now numbers.now sets.now round }
        requires part { MayClose board.now round 0 (tables_of self.now) words.old told.old }
        ensures { IsPartClosed board.now sets.now round 0 (tables_of self.now) words.old words.new
            told.new result };

    /// Adds to each of the `sets` that of its list in each of these tables.
    fn add(&self, told: &[Labels<WORDS>], sets: &mut [Labels<WORDS>])
        requires can_make { can_make self.now }
        requires narrow { WORDS ≤ ROW_WORDS }
        requires told { length told.now ≡ tables_of self.now * length sets.old }
        ensures { AreGathered (tables_of self.now) (length sets.old) 0 told.now sets.old sets.new };
}

/// The rounds in which the gaps of `board` close, made by `maker`. Before each but the first
/// `watch` tells of it. The error is that memory ran out, and then nothing was told.
pub(crate) fn rounds_of_gaps<const WORDS: usize, T, W: Watch<T>, M: RoundMaker<WORDS>>(
    alloc: Global,
    board: &Board,
    numbers: &ClassNumbers,
    maker: &M,
    watch: &W,
    told: &mut T,
) -> Result<GapRounds<WORDS>, Memory>
    requires can_make { M.can_make maker.now }
    requires narrow { WORDS ≤ ROW_WORDS }
    requires fits { board.now.labels ≤ 64 * WORDS }
    requires board { numbers.now ≡ board.now }
    requires few { ways (board.now.pebbles - 1) (places board.now) ≤ MAX_GAPS }
    ensures rounds { IfOk result (AreGapRounds board.now) }
    ensures told { OnOk result ((counts : List ℕ) × AreOpenCounts board.now counts
        × AreStepsTold (W.tells watch.now) 1 counts told.old told.new) }
    ensures untold { OnErr result (told.new ≡ told.old) }
{
    let mut words = vec![in alloc; OPEN; numbers.gaps() as usize]?;
    if board.pebbles() == 1 {
        // The one gap has no places, so that each label is an answer, whose result has that gap.
        return Ok(GapRounds {
            words,
            first: Vec::new(alloc),
            closed: Vec::new(alloc),
        });
    }
    let lists = numbers.ways(board.pebbles() - 2, board.places());
    let mut first = Vec::with_capacity(alloc, lists as usize)?;
    let mut closed = vec![in alloc; Labels::below(0); lists as usize]?;
    let mut tables = vec![in alloc; Labels::below(0); maker.tables() as usize * lists as usize]?;
    let mut round = 0;
    let mut end = words.len();
    loop {
        let some = close_open(
            maker,
            board,
            numbers,
            &closed,
            round,
            end,
            &mut words,
            &mut tables,
        );
        maker.add(&tables, &mut closed);
        if round == 0 {
            first.extend_from_slice(&closed)?;
        }
        if !some {
            return Ok(GapRounds {
                words,
                first,
                closed,
            });
        }
        round += 1;
        end = end_of_open(&words, end);
        tell_open(watch, told, round, &words);
    }
}

/// The same as `maker.close`, which looks at the words before `end` alone: none is open from there
/// on.
fn close_open<const WORDS: usize, M: RoundMaker<WORDS>>(
    maker: &M,
    board: &Board,
    numbers: &ClassNumbers,
    sets: &[Labels<WORDS>],
    round: u32,
    end: usize,
    words: &mut [u32],
    told: &mut [Labels<WORDS>],
) -> bool
    requires can_make { M.can_make maker.now }
    requires can_close { CanClose WORDS board.now numbers.now sets.now round }
    requires part { MayClose board.now round 0 (M.tables_of maker.now) words.old told.old }
    requires shut { AreClosedFrom words.old end }
    ensures { IsPartClosed board.now sets.now round 0 (M.tables_of maker.now) words.old words.new
        told.new result }
{
    maker.close(board, numbers, sets, round, &mut words[..end], told)
}

/// Tells that `round` begins, with the number of `words` that are open, if anything is told.
fn tell_open<T, W: Watch<T>>(watch: &W, told: &mut T, round: u32, words: &[u32])
    requires { length words.now ≤ MAX_GAPS }
    ensures { W.tells watch.now told.old told.new round (open_below words.now (length words.now)) }
{
    if watch.watches() {
        watch.begin(told, round, u64::from(count_open(words)));
    }
}

/// How many of the `words` are open.
fn count_open(words: &[u32]) -> u32
    requires { length words.now ≤ MAX_GAPS }
    ensures { result ≡ open_below words.now (length words.now) }
{
    let mut count = 0;
    for index in 0..words.len() {
        if words[index] == OPEN {
            count += 1;
        }
    }
    count
}

/// One more than the place of the last open word, or 0. None stands at `from` or behind it.
fn end_of_open(words: &[u32], from: usize) -> usize
    requires { AreClosedFrom words.now from }
    ensures { AreClosedFrom words.now result }
{
    let mut end = from;
    while end > 0 && words[end - 1] != OPEN {
        end -= 1;
    }
    end
}
