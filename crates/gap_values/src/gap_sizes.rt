//! Counting the configurations of the classes that a gap makes with a place that isn't above its
//! least one, by rows of bits: those of value 0 and those that last for ever are counted at once.

ghost use Rattle.std.specs.Prelude.{◌≡◌, ◌*◌, ◌⊎◌, ℕ, ◌+◌, ◌-◌, ◌<◌, ◌≤◌, ◌↔◌, true, List, length};
ghost use Rattle.std.specs.Prelude.{slice_index};
ghost use Rattle.board_text.specs.Domination.{has_bit};
ghost use Rattle.board_text.specs.PlainBoard.{PlainBoard, places};
ghost use Rattle.classes.specs.ClassGaps.{member_with};
ghost use Rattle.gap_values.specs.Inside.Counts.{IsAboveRounds, HaveRoom, AreMore};
ghost use Rattle.gap_values.specs.Inside.Counts.{AreSmallWeights, class_word, once, made_by};
ghost use Rattle.gap_values.specs.Inside.Counts.{made_by_bits, made_among};
ghost use Rattle.classes.specs.FamilyWalks.{IsFamilyOf};
ghost use Rattle.gap_values.specs.Inside.Sets.{AreAtMost, AreGapRounds, AreLabelsUpTo, AreSets};
ghost use Rattle.gap_values.specs.Inside.Sets.{TellClosed};
ghost use Rattle.gap_values.specs.Inside.Words.{AreGapWords};

use crate::closing::{OPEN, left_of};
use crate::rounds::GapRounds;
use crate::sizes::{Sizes, first_of_member};
use crate::weight::FamilyWeights;
use board_text::{MAX_LABELS, ROW_WORDS};
use classes::{ClassNumbers, Family};
use positions::Labels;

impl Sizes {
    /// Adds `more` configurations of the value that `word` stands for.
    fn count(&mut self, word: u32, more: u64)
        requires few { length self.old.finite.items ≤ OPEN }
        requires word { 0 < more → (word ≡ OPEN) ⊎ (word < length self.old.finite.items) }
        requires room { (most : ℕ) × HaveRoom most self.old
            × (most + more ≤ 18446744073709551615) }
        ensures { AreMore self.old self.new (once word more) }
    {
        if word == OPEN {
            self.forever += more;
        } else if more > 0 {
            self.finite[word as usize] += more;
        }
    }
}

/// A gap of a family, by its least place.
#[derive(Clone, Copy)]
pub(crate) struct GapOf<'a, const WORDS: usize> {
    pub(crate) family: &'a Family,
    /// The family of the gap with the least place 0.
    pub(crate) lowest: &'a Family,
    pub(crate) least: u16,
    /// The labels up to the least place.
    pub(crate) upto: Labels<WORDS>,
}

/// Adds the configurations of the classes that `gap` makes with a place that isn't above its least
/// one, which have these `weights`.
pub(crate) fn count_gap<const WORDS: usize>(
    numbers: &ClassNumbers,
    rounds: &GapRounds<WORDS>,
    gap: &GapOf<'_, WORDS>,
    weights: &FamilyWeights,
    sizes: &mut Sizes,
)
    requires narrow { WORDS ≤ ROW_WORDS }
    requires fits { numbers.now.labels ≤ 64 * WORDS }
    requires some { 2 ≤ numbers.now.pebbles }
    requires rounds { AreGapRounds numbers.now rounds.now }
    requires family { IsFamilyOf numbers.now (numbers.now.pebbles - 2)
        gap.now.family.now }
    requires lowest { IsFamilyOf numbers.now (numbers.now.pebbles - 1)
        gap.now.lowest.now }
    requires lowest_held { gap.now.lowest.now.held
        ≡ member_with gap.now.family.now.held 0 }
    requires least { gap.now.least < gap.now.family.now.size }
    requires upto { gap.now.least + 1 < places numbers.now
        → AreLabelsUpTo gap.now.least gap.now.upto }
    requires weights { AreSmallWeights weights.now }
    requires above { IsAboveRounds rounds.now.words.items (length sizes.old.finite.items) }
    requires room { HaveRoom 207458501411267280 sizes.old }
    ensures { AreMore sizes.old sizes.new
        (made_by numbers.now rounds.now.words.items
        (member_with gap.now.family.now.held gap.now.least)
        (gap.now.least + 1) weights.now) }
{
    let GapOf {
        family,
        lowest,
        least,
        upto,
    } = *gap;
    if least + 1 == numbers.places() {
        // The place without a label is in no set.
        let member = numbers.member_family(family, lowest, least);
        count_each(numbers, &rounds.words, &member, weights, sizes);
        return;
    }
    let word = rounds.words[(family.start + least as u64) as usize];
    if word == 0 {
        // All these classes are lost at once, as the gap is closed.
        sizes.count(0, weights.each * least as u64 + weights.last);
        return;
    }
    let positive = unclosed(family, least, &upto, word, 1, &rounds.first);
    let lasting = unclosed(family, least, &upto, word, OPEN, &rounds.closed);
    count_by_bits(&positive, &lasting, least, weights, sizes);
    let middle = positive.without(&lasting);
    if !middle.is_empty() {
        let member = numbers.member_family(family, lowest, least);
        count_among(numbers, &rounds.words, &member, &middle, weights, sizes);
    }
}

/// The labels of `upto` with which the gap of `family` with the least place `least`, whose word is
/// `word`, makes a class none of whose gaps has a word below `bound`. The `sets` tell of the gaps
/// with such words.
fn unclosed<const WORDS: usize>(
    family: &Family,
    least: u16,
    upto: &Labels<WORDS>,
    word: u32,
    bound: u32,
    sets: &[Labels<WORDS>],
) -> Labels<WORDS>
    requires family { (board : PlainBoard) × (2 ≤ board.pebbles)
        × IsFamilyOf board (board.pebbles - 2) family.now × AreSets board sets.now }
    requires least { least < family.now.size }
    ensures within { (x : ℕ) → x < MAX_LABELS → has_bit result x ≡ true
        → has_bit upto.now x ≡ true }
    ensures labels { (board : PlainBoard) (words : List ℕ) → 2 ≤ board.pebbles
        → IsFamilyOf board (board.pebbles - 2) family.now
        → TellClosed board words bound sets.now → bound ≤ OPEN
        → word ≡ slice_index words (family.now.start + least) → (x : ℕ) → x < board.labels
        → (has_bit result x ≡ true) ↔ ((has_bit upto.now x ≡ true)
        × (bound ≤ class_word board words (member_with family.now.held least) x)) }
{
    if word < bound {
        return Labels::below(0);
    }
    let common = upto.without(&sets[family.number as usize]);
    left_of(family, &common, least, sets)
}

/// Adds the configurations of the classes that a gap with the least place `least` makes with the
/// labels up to it: those that aren't `positive` have the value 0, and those that are `lasting`
/// last for ever.
fn count_by_bits<const WORDS: usize>(
    positive: &Labels<WORDS>,
    lasting: &Labels<WORDS>,
    least: u16,
    weights: &FamilyWeights,
    sizes: &mut Sizes,
)
    requires narrow { WORDS ≤ ROW_WORDS }
    requires least { least < 64 * WORDS }
    requires positive { AreAtMost least positive.now }
    requires lasting { AreAtMost least lasting.now }
    requires weights { AreSmallWeights weights.now }
    requires some { (x : ℕ) → x ≤ least → (has_bit positive.now x ≡ true → ⊥)
        → 0 < length sizes.old.finite.items }
    requires few { length sizes.old.finite.items ≤ OPEN }
    requires room { HaveRoom 300000000000000000 sizes.old }
    ensures { AreMore sizes.old sizes.new
        (made_by_bits positive.now lasting.now (least + 1) weights.now) }
{
    let only = Labels::below(0).with(least);
    let zero = least as u64 - positive.without(&only).len() as u64;
    let forever = lasting.without(&only).len() as u64;
    let ends_at_zero = !positive.contains(least) as u64;
    let ends_lasting = lasting.contains(least) as u64;
    sizes.count(0, weights.each * zero + weights.last * ends_at_zero);
    sizes.count(OPEN, weights.each * forever + weights.last * ends_lasting);
}

/// Adds the configurations of all classes of the family `gap`, each at its word.
pub(crate) fn count_each(
    numbers: &ClassNumbers,
    words: &[u32],
    gap: &Family,
    weights: &FamilyWeights,
    sizes: &mut Sizes,
)
    requires words { AreGapWords numbers.now words.now }
    requires gap { IsFamilyOf numbers.now (numbers.now.pebbles - 1) gap.now }
    requires weights { AreSmallWeights weights.now }
    requires above { IsAboveRounds words.now (length sizes.old.finite.items) }
    requires room { HaveRoom 300000000000000000 sizes.old }
    ensures { AreMore sizes.old sizes.new
        (made_by numbers.now words.now gap.now.held gap.now.size weights.now) }
{
    for place in 0..gap.size {
        let word = first_of_member(numbers, words, gap, place);
        sizes.count(word, weights.of(place, gap.size));
    }
}

/// Adds the configurations of the classes of the family `gap` whose least places are labels of
/// `among`, each at its word.
fn count_among<const WORDS: usize>(
    numbers: &ClassNumbers,
    words: &[u32],
    gap: &Family,
    among: &Labels<WORDS>,
    weights: &FamilyWeights,
    sizes: &mut Sizes,
)
    requires words { AreGapWords numbers.now words.now }
    requires gap { IsFamilyOf numbers.now (numbers.now.pebbles - 1) gap.now }
    requires labels { gap.now.size ≤ 64 * WORDS }
    requires weights { AreSmallWeights weights.now }
    requires above { IsAboveRounds words.now (length sizes.old.finite.items) }
    requires room { HaveRoom 300000000000000000 sizes.old }
    ensures { AreMore sizes.old sizes.new
        (made_among numbers.now words.now gap.now.held gap.now.size weights.now among.now) }
{
    for place in 0..gap.size {
        if among.contains(place) {
            let word = first_of_member(numbers, words, gap, place);
            sizes.count(word, weights.of(place, gap.size));
        }
    }
}
