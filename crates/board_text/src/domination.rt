//! Which labels dominate which, as bits.

ghost use Rattle.std.specs.Prelude.{◌≡◌, ℕ, ◌+◌, ◌*◌, ◌/◌, ◌≤◌, ◌<◌, ◌++◌, ◌∷◌, [], length, true};
ghost use Rattle.std.specs.Prelude.{IfOk, OnOk, string_bytes};
ghost use Rattle.std.specs.Prelude.{IsTrue, ◌↔◌, Contains};
ghost use Rattle.board_text.specs.Ranges.{InRange};
ghost use Rattle.board_text.specs.PlainBoard.{AreLabels};
ghost use Rattle.board_text.specs.Inside.Domination.{SetsPair, beats_in, pairs_of};
ghost use Rattle.std.specs.List.{flat_map};
ghost use Rattle.board_text.specs.BoardText.{beats_line};

use crate::board::MAX_LABELS;
use std::alloc::{AllocError, Global};
use std::fmt::Write;
use std::marker::Model;

/// How many words the row of a label has.
pub const ROW_WORDS: usize = 4;

/// The pairs of labels of which the first beats the second, ascending.
///
/// Each label has a row of bits, one for each label that beats it.
#[derive(Drop)]
pub struct Domination {
    labels: u16,
    /// The rows, one after the other.
    rows: Vec<u64>,
    /// The number after that of the last pair, among all pairs of labels in ascending order.
    next: u32,
}

impl Model for Domination {
    ghost use Rattle.board_text.specs.Domination.{PairsOfLabels};
    ghost use Rattle.board_text.specs.Inside.Domination.{pairs_of, AreBitRows};

    ghost Value = { PairsOfLabels };

    ghost view = { λ d. record { labels = d.labels; pairs = pairs_of d.labels d.rows.items } };

    ghost invariant = { λ d. AreBitRows d.labels d.rows.items d.next };
}

impl Domination {
    ghost use Rattle.board_text.specs.PlainBoard.{IsNext};
    ghost use Rattle.board_text.specs.Domination.{has_bit};

    /// A domination among `labels` labels, without any pair.
    pub fn new(alloc: Global, labels: u16) -> Result<Domination, AllocError>
        requires { InRange 1 MAX_LABELS labels }
        ensures { IfOk result (λ d. (d.labels ≡ labels) × (d.pairs ≡ [])) }
    {
        let words = ROW_WORDS * labels as usize;
        Ok(Domination {
            labels,
            rows: vec![in alloc; 0; words]?,
            next: 0,
        })
    }

    /// How many labels there are.
    pub fn labels(&self) -> u16
        ensures value { result ≡ self.now.labels }
        ensures in_range { InRange 1 MAX_LABELS result }
    {
        self.labels
    }

    /// Whether `x` beats `y`.
    pub fn contains(&self, x: u16, y: u16) -> bool
        requires { AreLabels self.now.labels (x, y) }
        ensures { IsTrue result ↔ Contains self.now.pairs (x, y) }
    {
        has_pair(&self.rows, u32::from(x), u32::from(y))
    }

    /// The bits of the labels that beat `label`.
    pub fn row(&self, label: u16) -> &[u64]
        requires { label < self.now.labels }
        ensures words { length result.now ≡ ROW_WORDS }
        ensures bits { (x : ℕ) → x < MAX_LABELS
            → (has_bit result.now x ≡ true) ↔ Contains self.now.pairs (x, label) }
    {
        let from = ROW_WORDS * label as usize;
        &self.rows[from..from + ROW_WORDS]
    }

    /// Whether the pair of `x` and `y` comes after the last one.
    pub fn is_next(&self, x: u16, y: u16) -> bool
        requires { AreLabels self.now.labels (x, y) }
        ensures { IsTrue result ↔ IsNext self.now.pairs (x, y) }
    {
        self.next <= pair_number(self.labels, x, y)
    }

    /// Lets `x` beat `y`, a pair that comes after the last one.
    pub fn push(&mut self, x: u16, y: u16)
        requires labels { AreLabels self.old.labels (x, y) }
        requires next { IsNext self.old.pairs (x, y) }
        ensures labels { self.new.labels ≡ self.old.labels }
        ensures pairs { self.new.pairs ≡ self.old.pairs ++ (x, y) ∷ [] }
        ensures few { length self.new.pairs ≤ 65536 }
    {
        let number = pair_number(self.labels, x, y);
        set_pair(self.labels, self.rows.as_mut_slice(), x, y);
        self.next = number + 1;
    }

    /// Appends a line for each pair to `text`, ascending.
    pub(crate) fn write_lines(&self, text: &mut String) -> Result<(), AllocError>
        ensures { OnOk result (string_bytes text.new ≡ string_bytes text.old
            ++ flat_map beats_line self.now.pairs) }
    {
        write_pairs(self.labels, &self.rows, text)
    }

    /// An upper bound on the bytes of the lines of all pairs.
    pub(crate) fn size_of_lines(&self) -> usize {
        let size_of_line = match self.labels {
            0..=10 => "beats 9 9\n".len(),
            11..=100 => "beats 99 99\n".len(),
            _ => "beats 255 255\n".len(),
        };
        let mut size: usize = 0;
        for word in &self.rows {
            size = size.saturating_add(word.count_ones() as usize * size_of_line);
        }
        size
    }
}

/// Appends a line to `text` for each pair of `rows`.
fn write_pairs(labels: u16, rows: &[u64], text: &mut String) -> Result<(), AllocError>
    requires in_range { InRange 1 MAX_LABELS labels }
    requires sized { length rows.now ≡ 4 * labels }
    ensures { OnOk result (string_bytes text.new ≡ string_bytes text.old
        ++ flat_map beats_line (pairs_of labels rows.now)) }
{
    let labels = u32::from(labels);
    for number in 0..labels * labels {
        let x = number / labels;
        let y = number % labels;
        if has_pair(rows, x, y) {
            writeln!(text, "beats {x} {y}")?;
        }
    }
    Ok(())
}

/// Whether `rows` say that `x` beats `y`.
fn has_pair(rows: &[u64], x: u32, y: u32) -> bool
    requires label { x < MAX_LABELS }
    requires row { 4 * y + 4 ≤ length rows.now }
    ensures { result ≡ beats_in rows.now x y }
{
    let word = rows[ROW_WORDS * y as usize + x as usize / 64];
    (word >> (x % 64)) & 1 == 1
}

/// Sets the bit in `rows` of the pair of `x` and `y`.
fn set_pair(labels: u16, rows: &mut [u64], x: u16, y: u16)
    requires few { labels ≤ MAX_LABELS }
    requires sized { length rows.old ≡ 4 * labels }
    requires pair { AreLabels labels (x, y) }
    ensures { SetsPair labels rows.old rows.new x y }
{
    rows[ROW_WORDS * y as usize + x as usize / 64] |= 1 << (x % 64);
}

/// The number of the pair of `x` and `y` among all pairs of labels in ascending order.
fn pair_number(labels: u16, x: u16, y: u16) -> u32
    requires few { labels ≤ MAX_LABELS }
    requires pair { AreLabels labels (x, y) }
    ensures number { result ≡ x * labels + y }
    ensures below { result < labels * labels }
{
    x as u32 * labels as u32 + y as u32
}
