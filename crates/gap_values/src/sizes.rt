//! How many configurations have a value.

ghost use Rattle.std.specs.Prelude.{◌≡◌, ◌*◌, ◌≢◌, ◌+◌, ◌-◌, ◌<◌, ◌≤◌, ℕ, length, IfOk};
ghost use Rattle.std.specs.Prelude.{slice_index};
ghost use Rattle.classes.specs.ClassGaps.{member_with};
ghost use Rattle.gap_values.specs.Sizes.{AreValueCounts};
ghost use Rattle.gap_values.specs.Inside.Counts.{IsAboveRounds, AreSizesBetween, IsTrimmed};
ghost use Rattle.classes.specs.FamilyWalks.{IsFamilyOf};
ghost use Rattle.gap_values.specs.Inside.Sets.{AreGapRounds};
ghost use Rattle.gap_values.specs.Inside.Words.{least_word, AreGapWords};

use crate::closing::OPEN;
use crate::gap_sizes::{GapOf, count_each, count_gap};
use crate::rounds::GapRounds;
use crate::weight::{family_weights, gap_weights};
use board_text::{Memory, ROW_WORDS};
use classes::{ClassNumbers, Family};
use positions::Labels;
use std::alloc::Global;
use std::thread::{Threads, map_chunks};

/// The least of the words of the gaps of the class of `family` with the least place `least`.
pub(crate) fn first_of_member(
    numbers: &ClassNumbers,
    words: &[u32],
    family: &Family,
    least: u16,
) -> u32
    requires words { AreGapWords numbers.now words.now }
    requires family { IsFamilyOf numbers.now (numbers.now.pebbles - 1) family.now }
    requires least { least < family.now.size }
    ensures { result
        ≡ least_word words.now (member_with family.now.held least) numbers.now.pebbles }
{
    let mut first = OPEN;
    for index in 0..family.held.as_slice().len() {
        let word = words[(family.rests[index] + least as u64) as usize];
        if word < first {
            first = word;
        }
    }
    first.min(words[family.number as usize])
}

/// How many configurations have each value.
#[derive(Drop)]
pub struct Sizes {
    /// Those of each finite value from 0 to the greatest that occurs.
    pub finite: Vec<u64>,
    /// Those that last for ever.
    pub forever: u64,
}

/// The numbers of configurations of all values, which at most `workers` threads count, each those
/// of a part. The error is that memory ran out.
pub(crate) fn sizes_of<const WORDS: usize>(
    rt: &(impl Threads + Sync),
    alloc: Global,
    numbers: &ClassNumbers,
    rounds: &GapRounds<WORDS>,
    workers: u8,
) -> Result<Sizes, Memory>
    requires narrow { WORDS ≤ ROW_WORDS }
    requires fits { numbers.now.labels ≤ 64 * WORDS }
    requires rounds { AreGapRounds numbers.now rounds.now }
    requires workers { 1 ≤ workers }
    ensures { IfOk result (λ sizes. AreValueCounts numbers.now sizes.finite.items sizes.forever) }
{
    let bound = rounds_in(&rounds.words);
    let mut sizes = sizes_in_parts(rt, alloc, numbers, rounds, bound, workers)?;
    sizes.trim();
    Ok(sizes)
}

/// The same, counted on this thread.
pub(crate) fn sizes_alone<const WORDS: usize>(
    alloc: Global,
    numbers: &ClassNumbers,
    rounds: &GapRounds<WORDS>,
) -> Result<Sizes, Memory>
    requires narrow { WORDS ≤ ROW_WORDS }
    requires fits { numbers.now.labels ≤ 64 * WORDS }
    requires rounds { AreGapRounds numbers.now rounds.now }
    ensures { IfOk result (λ sizes. AreValueCounts numbers.now sizes.finite.items sizes.forever) }
{
    let bound = rounds_in(&rounds.words);
    let mut sizes = sizes_between(alloc, numbers, rounds, bound, 0, rounds.words.len() as u64)?;
    sizes.trim();
    Ok(sizes)
}

/// The numbers of configurations of all values, added up from at most `workers` parts. One worker
/// is this thread. The error is that memory ran out.
fn sizes_in_parts<const WORDS: usize>(
    rt: &(impl Threads + Sync),
    alloc: Global,
    numbers: &ClassNumbers,
    rounds: &GapRounds<WORDS>,
    bound: u32,
    workers: u8,
) -> Result<Sizes, Memory>
    requires narrow { WORDS ≤ ROW_WORDS }
    requires fits { numbers.now.labels ≤ 64 * WORDS }
    requires rounds { AreGapRounds numbers.now rounds.now }
    requires bound { IsAboveRounds rounds.now.words.items bound }
    requires workers { 1 ≤ workers }
    ensures { IfOk result (AreSizesBetween numbers.now rounds.now.words.items bound
        0 (length rounds.now.words.items)) }
{
    let words = &rounds.words;
    if workers == 1 {
        return sizes_between(alloc, numbers, rounds, bound, 0, words.len() as u64);
    }
    let size = words.len().div_ceil(workers as usize).max(1);
    let parts = map_chunks(
        rt,
        alloc,
        words,
        size,
        &move |first: usize, part: &[u32]| -> Result<Sizes, Memory>
            requires narrow { WORDS ≤ ROW_WORDS }
            requires fits { numbers.now.labels ≤ 64 * WORDS }
            requires rounds { AreGapRounds numbers.now rounds.now }
            requires bound { IsAboveRounds rounds.now.words.items bound }
            requires part { first + length part.now ≤ length rounds.now.words.items }
            ensures { IfOk result (AreSizesBetween numbers.entry.now
                rounds.entry.now.words.items bound first (first + length part.now)) }
        {
            sizes_between(
                alloc,
                numbers,
                rounds,
                bound,
                first as u64,
                (first + part.len()) as u64,
            )
        },
    )?;
    let mut sizes = sizes_between(alloc, numbers, rounds, bound, 0, 0)?;
    for index in 0..parts.len() {
        match &parts[index] {
            Ok(part) => sizes.add(part),
            Err(_) => return Err(Memory),
        }
    }
    Ok(sizes)
}

/// The numbers of configurations of all values, of the classes of the gaps from the number `from`
/// up to the number `to` alone. A class is one of the gap that leaves its least place out. The
/// error is that memory ran out.
fn sizes_between<const WORDS: usize>(
    alloc: Global,
    numbers: &ClassNumbers,
    rounds: &GapRounds<WORDS>,
    bound: u32,
    from: u64,
    to: u64,
) -> Result<Sizes, Memory>
    requires narrow { WORDS ≤ ROW_WORDS }
    requires fits { numbers.now.labels ≤ 64 * WORDS }
    requires rounds { AreGapRounds numbers.now rounds.now }
    requires bound { IsAboveRounds rounds.now.words.items bound }
    requires order { from ≤ to }
    requires to { to ≤ length rounds.now.words.items }
    ensures { IfOk result (AreSizesBetween numbers.now rounds.now.words.items bound from to) }
{
    let finite = vec![in alloc; 0u64; bound as usize]?;
    let mut sizes = Sizes { finite, forever: 0 };
    if numbers.pebbles() == 1 {
        count_lone(numbers, rounds, from, to, &mut sizes);
        return Ok(sizes);
    }
    let fewer = numbers.pebbles() - 2;
    let mut walk = numbers.families(fewer);
    for number in 0..numbers.ways(fewer, numbers.places()) {
        let start = walk.start;
        let size = numbers.family_size(&walk, number) as u64;
        let low = from.max(start);
        let high = to.min(start + size);
        if low < high {
            let family = numbers.family(&walk, number);
            count_gaps_of(numbers, rounds, &family, low, high, &mut sizes);
        }
        numbers.next_family(&mut walk, number);
    }
    Ok(sizes)
}

/// Adds the classes of the gap of a board of one pebble, if its number is from `from` up to `to`.
fn count_lone<const WORDS: usize>(
    numbers: &ClassNumbers,
    rounds: &GapRounds<WORDS>,
    from: u64,
    to: u64,
    sizes: &mut Sizes,
)
    requires one { numbers.now.pebbles ≡ 1 }
    requires rounds { AreGapRounds numbers.now rounds.now }
    requires above { IsAboveRounds rounds.now.words.items (length sizes.old.finite.items) }
    requires order { from ≤ to }
    requires to { to ≤ length rounds.now.words.items }
    requires none { AreSizesBetween numbers.now rounds.now.words.items
        (length sizes.old.finite.items) from from sizes.old }
    ensures { AreSizesBetween numbers.now rounds.now.words.items (length sizes.old.finite.items)
        from to sizes.new }
{
    if from < to {
        let family = numbers.family(&numbers.families(0), 0);
        let weights = family_weights(&family);
        count_each(numbers, &rounds.words, &family, &weights, sizes);
    }
}

/// Adds the classes of the gaps of `family` from the number `low` up to the number `high`.
fn count_gaps_of<const WORDS: usize>(
    numbers: &ClassNumbers,
    rounds: &GapRounds<WORDS>,
    family: &Family,
    low: u64,
    high: u64,
    sizes: &mut Sizes,
)
    requires narrow { WORDS ≤ ROW_WORDS }
    requires fits { numbers.now.labels ≤ 64 * WORDS }
    requires some { 2 ≤ numbers.now.pebbles }
    requires rounds { AreGapRounds numbers.now rounds.now }
    requires above { IsAboveRounds rounds.now.words.items (length sizes.old.finite.items) }
    requires family { IsFamilyOf numbers.now (numbers.now.pebbles - 2) family.now }
    requires low { family.now.start ≤ low }
    requires order { low < high }
    requires high { high ≤ family.now.start + family.now.size }
    requires counted { (from : ℕ) × AreSizesBetween numbers.now rounds.now.words.items
        (length sizes.old.finite.items) from low sizes.old }
    ensures { (from : ℕ) → AreSizesBetween numbers.now rounds.now.words.items
        (length sizes.old.finite.items) from low sizes.old
        → AreSizesBetween numbers.now rounds.now.words.items
        (length sizes.old.finite.items) from high sizes.new }
{
    let weights = gap_weights(family);
    let lowest = numbers.lowest_member(family);
    let mut upto = Labels::below((low - family.start) as u16);
    for number in low..high {
        let least = (number - family.start) as u16;
        if least + 1 < numbers.places() {
            upto = upto.with(least);
        }
        let own = weights.of(least, family.size);
        let gap = GapOf {
            family,
            lowest: &lowest,
            least,
            upto,
        };
        count_gap(numbers, rounds, &gap, own, sizes);
    }
}

impl Sizes {
    /// Takes the zeros from the end of the list.
    fn trim(&mut self)
        ensures finite { IsTrimmed self.old.finite.items self.new.finite.items }
        ensures forever { self.new.forever ≡ self.old.forever }
    {
        let values = values_in(&self.finite);
        self.finite.truncate(values);
    }

    /// Adds the counts of `other`, which has as many.
    fn add(&mut self, other: &Sizes)
        requires same { length other.now.finite.items ≡ length self.old.finite.items }
        requires few { (value : ℕ) → slice_index self.old.finite.items value
            + slice_index other.now.finite.items value ≤ 18446744073709551615 }
        requires few_unending { self.old.forever + other.now.forever ≤ 18446744073709551615 }
        ensures size { length self.new.finite.items ≡ length self.old.finite.items }
        ensures finite { (value : ℕ) → value < length self.old.finite.items
            → slice_index self.new.finite.items value
            ≡ slice_index self.old.finite.items value + slice_index other.now.finite.items value }
        ensures forever { self.new.forever ≡ self.old.forever + other.now.forever }
    {
        for value in 0..self.finite.len() {
            self.finite[value] += other.finite[value];
        }
        self.forever += other.forever;
    }
}

/// The number of counts up to the last that is not 0.
fn values_in(counts: &[u64]) -> usize
    ensures within { result ≤ length counts.now }
    ensures last { 0 < result → slice_index counts.now (result - 1) ≢ 0 }
    ensures zeros { (value : ℕ) → result ≤ value → value < length counts.now
        → slice_index counts.now value ≡ 0 }
{
    let mut values = counts.len();
    while values > 0 && counts[values - 1] == 0 {
        values -= 1;
    }
    values
}

/// A number above each word that stands for a round.
fn rounds_in(words: &[u32]) -> u32
    ensures { IsAboveRounds words.now result }
{
    let mut rounds = 0;
    for index in 0..words.len() {
        let word = words[index];
        if word != OPEN && word >= rounds {
            rounds = word + 1;
        }
    }
    rounds
}
