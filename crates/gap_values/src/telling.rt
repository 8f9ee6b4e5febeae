//! Gaps that closed are told to the sets of closed gaps.

ghost use Rattle.std.specs.Prelude.{◌≡◌, ◌*◌, ◌+◌, ◌-◌, ◌<◌, ◌≤◌, IfOk, length};
ghost use Rattle.board_text.specs.PlainBoard.{places};
ghost use Rattle.classes.specs.ClassGaps.{member_with};
ghost use Rattle.classes.specs.Numbers.{ways};
ghost use Rattle.classes.specs.FamilyWalks.{IsFamilyOf};
ghost use Rattle.gap_values.specs.Inside.Sets.{AreGathered, AreSets, AreSetsOf, IsTold};
ghost use Rattle.gap_values.specs.Inside.Sets.{IsGapToldTo, TellClosed};
ghost use Rattle.gap_values.specs.Inside.Words.{AreGapWords, IsClosedUpTo};

use crate::closing::OPEN;
use board_text::{Board, Memory, ROW_WORDS};
use classes::{ClassNumbers, Family};
use positions::Labels;
use rayon::slice::par_chunks_mut_for_each;
use std::alloc::Global;
use std::thread::Threads;

/// Adds the label of `place` to the set of the list of number `list`, if the place holds one.
fn tell<const WORDS: usize>(board: &Board, list: usize, place: u16, sets: &mut [Labels<WORDS>])
    requires fits { board.now.labels ≤ 64 * WORDS }
    requires list { list < length sets.old }
    ensures { IsTold board.now list place sets.old sets.new }
{
    if place < board.labels() {
        sets[list] = sets[list].with(place);
    }
}

/// Tells the gap of `family` with the least place `least` to the sets of its lists.
pub(crate) fn tell_gap<const WORDS: usize>(
    board: &Board,
    family: &Family,
    least: u16,
    sets: &mut [Labels<WORDS>],
)
    requires fits { board.now.labels ≤ 64 * WORDS }
    requires some { 2 ≤ board.now.pebbles }
    requires family { IsFamilyOf board.now (board.now.pebbles - 2) family.now }
    requires least { least < family.now.size }
    requires sets { AreSets board.now sets.old }
    ensures { IsGapToldTo board.now (member_with family.now.held least) (board.now.pebbles - 1)
        sets.old sets.new }
{
    let held = family.held.as_slice();
    for index in 0..held.len() {
        let list = (family.rests[index] + least as u64) as usize;
        tell(board, list, held[index], sets);
    }
    tell(board, family.number as usize, least, sets);
}

/// Tells the gaps of `family` whose words are below `bound`.
fn tell_family<const WORDS: usize>(
    board: &Board,
    family: &Family,
    words: &[u32],
    bound: u32,
    sets: &mut [Labels<WORDS>],
)
    requires fits { board.now.labels ≤ 64 * WORDS }
    requires some { 2 ≤ board.now.pebbles }
    requires family { IsFamilyOf board.now (board.now.pebbles - 2) family.now }
    requires words { AreGapWords board.now words.now }
    requires bound { bound ≤ OPEN }
    requires sets { AreSetsOf board.now (IsClosedUpTo words.now bound family.now.start) sets.old }
    ensures { AreSetsOf board.now
        (IsClosedUpTo words.now bound (family.now.start + family.now.size)) sets.new }
{
    for least in 0..family.size {
        if words[(family.start + least as u64) as usize] < bound {
            tell_gap(board, family, least, sets);
        }
    }
}

/// The labels with which lists of places are gaps whose words are below `bound`, for each list. The
/// error is that memory ran out.
pub(crate) fn sets_below<const WORDS: usize>(
    alloc: Global,
    board: &Board,
    numbers: &ClassNumbers,
    words: &[u32],
    bound: u32,
) -> Result<Vec<Labels<WORDS>>, Memory>
    requires fits { board.now.labels ≤ 64 * WORDS }
    requires board { numbers.now ≡ board.now }
    requires some { 2 ≤ board.now.pebbles }
    requires words { AreGapWords board.now words.now }
    requires bound { bound ≤ OPEN }
    ensures { IfOk result (λ sets. TellClosed board.now words.now bound sets.items) }
{
    let fewer = board.pebbles() - 2;
    let lists = numbers.ways(fewer, board.places());
    let mut sets = vec![in alloc; Labels::below(0); lists as usize]?;
    let mut walk = numbers.families(fewer);
    for number in 0..lists {
        let family = numbers.family(&walk, number);
        tell_family(board, &family, words, bound, &mut sets);
        numbers.next_family(&mut walk, number);
    }
    Ok(sets)
}

/// Adds to each of these sets, of which the first is that of the list `first`, the labels of its
/// list in all `tables`, each of so many `lists`.
pub(crate) fn add_tables<const WORDS: usize>(
    tables: usize,
    lists: usize,
    told: &[Labels<WORDS>],
    first: usize,
    sets: &mut [Labels<WORDS>],
)
    requires told { length told.now ≡ tables * lists }
    requires lists { first + length sets.old ≤ lists }
    ensures { AreGathered tables lists first told.now sets.old sets.new }
{
    for index in 0..sets.len() {
        let mut set = sets[index];
        for table in 0..tables {
            set = set.union(&told[table * lists + first + index]);
        }
        sets[index] = set;
    }
}

/// The same to all sets, in at most `tables` parts of them, a thread for each.
pub(crate) fn add_in_parts<const WORDS: usize>(
    rt: &(impl Threads + Sync),
    tables: usize,
    told: &[Labels<WORDS>],
    sets: &mut [Labels<WORDS>],
)
    requires narrow { WORDS ≤ ROW_WORDS }
    requires tables { 1 ≤ tables }
    requires told { length told.now ≡ tables * length sets.old }
    ensures { AreGathered tables (length sets.old) 0 told.now sets.old sets.new }
{
    let lists = sets.len();
    if tables == 1 {
        add_tables(1, lists, told, 0, sets);
        return;
    }
    let size = lists.div_ceil(tables).max(1);
    par_chunks_mut_for_each(
        rt,
        sets,
        size,
        |first: usize, part: &mut [Labels<WORDS>]|
            requires told { length told.now ≡ tables * lists }
            requires lists { first + length part.now ≤ lists }
            ensures { AreGathered tables lists first told.entry.now part.old part.new }
        { add_tables(tables, lists, told, first, part) },
    );
}
