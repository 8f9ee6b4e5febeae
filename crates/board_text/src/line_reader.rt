//! Reading lines, words and numbers from the start of a text.

ghost use Rattle.std.specs.Prelude.{◌≡◌, ◌≢◌, ℕ, ◌+◌, ◌≤◌, ◌<◌, ◌^◌, ◌++◌, ◌∷◌, [], List, length};
ghost use Rattle.std.specs.Prelude.{IsTrue, ◌↔◌};
ghost use Rattle.std.specs.Prelude.{MatchOption, Some, None, option_map};
ghost use Rattle.std.specs.Char.{is_ascii_digit};
ghost use Rattle.std.specs.Str.Parse.{AllDigits, digits_value};
ghost use Rattle.std.specs.Fmt.{decimal};
ghost use Rattle.std.specs.List.{prefix_len};
ghost use Rattle.board_text.specs.LineForms.{Takes, TakesNumber, NoDigit, number_line};
ghost use Rattle.board_text.specs.LineForms.{numbers_line};
ghost use Rattle.board_text.specs.Inside.LineForms.{TakesNumbers};
ghost use Rattle.board_text.specs.Inside.PlaceForms.{TakesPlace};
ghost use Rattle.board_text.specs.Ranges.{InRange, AreNumbers};
ghost use Rattle.board_text.specs.declared.line_reader.Numeral.TheVariants.{Number};

use crate::board::MAX_LABELS;
use std::marker::Model;

/// The meaning of a text of digits.
#[derive(Clone, Copy, Debug, PartialEq, Eq)]
pub enum Numeral {
    /// The number that they spell.
    Number(u32),
    /// A zero leads, or the number is 2^32 or more.
    NoNumber,
}

impl Numeral {
    ghost use Rattle.board_text.specs.Numerals.{IsNumberIn};

    /// The number, if it lies in the range from `low` to `high`, both included.
    #[inline(always)]
    pub fn within(self, low: u32, high: u32) -> Option<u32>
        ensures { MatchOption result ((n : ℕ) → IsNumberIn low high self n → ⊥)
            (IsNumberIn low high self) }
    {
        match self {
            Numeral::Number(n) if low <= n && n <= high => Some(n),
            _ => None,
        }
    }

    /// The number, if it is below `bound`.
    #[inline(always)]
    pub fn below(self, bound: u16) -> Option<u16>
        ensures { MatchOption result ((n : ℕ) → n < bound → self ≢ Number n)
            (λ n. (n < bound) × (self ≡ Number n)) }
    {
        match self {
            Numeral::Number(n) if n < bound as u32 => Some(n as u16),
            _ => None,
        }
    }
}

/// The rest of a text, from whose start lines, words and numbers are taken.
///
/// After a `None` nothing is known of the rest, unless the method says so.
#[derive(Drop)]
pub struct LineReader<'a> {
    rest: &'a [u8],
}

impl<'a> Model for LineReader<'a> {
    ghost use Rattle.std.specs.Prelude.{ℕ, List};

    ghost Value = { List ℕ };

    ghost view = { λ r. r.rest.now };
}

impl<'a> LineReader<'a> {
    ghost use Rattle.board_text.specs.Numerals.{TakesNumeral};
    ghost use Rattle.board_text.specs.PlaceForms.{places_line, TakesPlaces};
    ghost use Rattle.board_text.specs.Inside.PlaceForms.{TakesPlace};

    /// A reader of all of `bytes`.
    pub fn new(bytes: &'a [u8]) -> Self
        ensures { result ≡ bytes.now }
    {
        LineReader { rest: bytes }
    }

    /// Whether nothing is left.
    pub fn is_empty(&self) -> bool
        ensures { IsTrue result ↔ (self.now ≡ []) }
    {
        self.rest.is_empty()
    }

    /// How many bytes are left.
    pub fn len(&self) -> usize
        ensures { result ≡ length self.now }
    {
        self.rest.len()
    }

    /// Whether the next byte is `byte`.
    #[inline(always)]
    pub fn begins_with(&self, byte: u8) -> bool
        ensures { IsTrue result ↔ ((more : List ℕ) × (self.now ≡ byte ∷ more)) }
    {
        self.rest.first() == Some(&byte)
    }

    /// Takes `text`, if the rest begins with it; else takes nothing.
    #[inline(always)]
    pub fn take(&mut self, text: &[u8]) -> Option<()>
        ensures taken { MatchOption result ((more : List ℕ) → self.old ≢ text.now ++ more)
            (λ _. self.old ≡ text.now ++ self.new) }
        ensures none { MatchOption result (self.new ≡ self.old) (λ _. Unit {0}) }
    {
        // The texts are short: byte by byte, with one look at the length, is quicker than a
        // comparison of slices.
        if self.rest.len() < text.len() {
            return None;
        }
        let mut rest = self.rest;
        for byte in text {
            let (first, after) = rest.split_first()?;
            if first != byte {
                return None;
            }
            rest = after;
        }
        self.rest = rest;
        Some(())
    }

    /// Takes all digits that the rest begins with.
    pub fn digits(&mut self) -> &'a [u8]
        ensures digits { AllDigits 10 result.now }
        ensures taken { self.old ≡ result.now ++ self.new }
        ensures all { NoDigit self.new }
    {
        let (digits, rest) = split_digits(self.rest);
        self.rest = rest;
        digits
    }

    /// Takes the number that the rest begins with, if it lies in the range from `low` to `high`.
    #[inline(always)]
    pub fn number(&mut self, low: u32, high: u32) -> Option<u32>
        ensures { TakesNumber low high result self.old self.new }
    {
        self.numeral()?.within(low, high)
    }

    /// Takes the digits that the rest begins with, one or more,
    /// and returns the number that they spell.
    #[inline(always)]
    pub fn numeral(&mut self) -> Option<Numeral>
        ensures { TakesNumeral result self.old self.new }
    {
        if let Some((n, rest)) = short_number(self.rest) {
            self.rest = rest;
            return Some(Numeral::Number(n));
        }
        let digits = self.digits();
        if digits.is_empty() {
            return None;
        }
        match value(digits) {
            Some(n) => Some(Numeral::Number(n)),
            None => Some(Numeral::NoNumber),
        }
    }

    /// Reads `places.len()` space-led words into `places`.
    /// `Some(false)`: a word is no place below `bound`.
    pub fn places(&mut self, places: &mut [u16], labels: u16, bound: u16) -> Option<bool>
        requires some { 0 < length places.old }
        requires bound { (labels ≤ bound) × (bound ≤ labels + 1) }
        ensures { TakesPlaces (length places.old) labels bound
            (option_map (λ are. (are, places.new)) result) self.old self.new }
    {
        let mut are_places = true;
        let mut rest = self.rest;
        for place in places.iter_mut() {
            let (found, after) = spaced_place(rest, labels, bound)?;
            rest = after;
            match found {
                Some(n) => *place = n,
                None => are_places = false,
            }
        }
        self.rest = rest;
        Some(are_places)
    }

    /// Takes the text of a place: digits, or a hyphen if `labels` is below `bound`. Returns the
    /// place that it spells, if that is below `bound`.
    #[inline(always)]
    fn place(&mut self, labels: u16, bound: u16) -> Option<Option<u16>>
        requires { (labels ≤ bound) × (bound ≤ labels + 1) }
        ensures { TakesPlace labels bound result self.old self.new }
    {
        if labels < bound && self.take(b"-").is_some() {
            if !self.digits().is_empty() {
                return None;
            }
            return Some(Some(labels));
        }
        Some(self.numeral()?.below(labels))
    }

    /// Takes a line of `word`, a space and a number from `low` to `high`, and returns the number.
    pub fn number_line(&mut self, word: &[u8], low: u32, high: u32) -> Option<u32>
        ensures { Takes (InRange low high) (number_line word.now) result self.old self.new }
    {
        self.take(word)?;
        self.take(b" ")?;
        let n = self.number(low, high)?;
        self.take(b"\n")?;
        Some(n)
    }

    /// Takes a line of `word` and `numbers.len()` space-led numbers
    /// below `bound`, and reads these into `numbers`.
    #[inline(always)]
    pub fn numbers_line(&mut self, word: &[u8], numbers: &mut [u16], bound: u16) -> Option<()>
        requires some { 0 < length numbers.old }
        requires bound { 0 < bound }
        ensures { Takes (AreNumbers (length numbers.old) bound) (numbers_line word.now)
            (option_map (λ _. numbers.new) result) self.old self.new }
    {
        self.take(word)?;
        self.numbers(numbers, bound)?;
        self.take(b"\n")?;
        Some(())
    }

    /// Takes a line of `word` and `places.len()` space-led places, and reads these into `places`.
    pub fn places_line(&mut self, word: &[u8], places: &mut [u16], labels: u16) -> Option<()>
        requires some { 0 < length places.old }
        requires few { labels ≤ MAX_LABELS }
        ensures { Takes (AreNumbers (length places.old) (labels + 1)) (places_line labels word.now)
            (option_map (λ _. places.new) result) self.old self.new }
    {
        self.take(word)?;
        if !self.places(places, labels, labels + 1)? {
            return None;
        }
        self.take(b"\n")?;
        Some(())
    }

    #[inline(always)]
    fn numbers(&mut self, numbers: &mut [u16], bound: u16) -> Option<()>
        requires some { 0 < length numbers.old }
        requires bound { 0 < bound }
        ensures { TakesNumbers (length numbers.old) bound
            (option_map (λ _. numbers.new) result) self.old self.new }
    {
        for number in numbers.iter_mut() {
            self.take(b" ")?;
            *number = self.number(0, u32::from(bound) - 1)? as u16;
        }
        Some(())
    }
}

/// The place that the text after a space spells, if it is below `bound`, and the bytes after it.
/// `None`: `bytes` don't begin with a space and the text of a place.
#[inline(always)]
fn spaced_place(bytes: &[u8], labels: u16, bound: u16) -> Option<(Option<u16>, &[u8])>
    requires { (labels ≤ bound) × (bound ≤ labels + 1) }
    ensures { MatchOption result
        ((rest : List ℕ) → bytes.now ≡ 32 ∷ rest → TakesPlace labels bound None rest [])
        (λ found. (rest : List ℕ) × (bytes.now ≡ 32 ∷ rest)
        × TakesPlace labels bound (Some found.0) rest found.1.now) }
{
    let (first, rest) = bytes.split_first()?;
    if *first != b' ' {
        return None;
    }
    match short_number(rest) {
        Some((n, after)) => Some((Numeral::Number(n).below(labels), after)),
        None => long_place(rest, labels, bound),
    }
}

/// The same for a text without a space before it, however long it is.
#[cold]
#[inline(never)]
fn long_place(bytes: &[u8], labels: u16, bound: u16) -> Option<(Option<u16>, &[u8])>
    requires { (labels ≤ bound) × (bound ≤ labels + 1) }
    ensures { MatchOption result (TakesPlace labels bound None bytes.now [])
        (λ found. TakesPlace labels bound (Some found.0) bytes.now found.1.now) }
{
    let mut text = LineReader::new(bytes);
    let place = text.place(labels, bound)?;
    Some((place, text.rest))
}

/// The number of at most three digits that `bytes` begin with, and the bytes after it. `None`:
/// there is no digit, a fourth one follows, a zero leads, or there are fewer than four bytes.
#[inline(always)]
fn short_number(bytes: &[u8]) -> Option<(u32, &[u8])>
    ensures { MatchOption result (Unit {0}) (λ found. (found.0 < 1000)
        × (bytes.now ≡ decimal found.0 ++ found.1.now) × NoDigit found.1.now) }
{
    // Asked once, for all four digits that are looked at.
    if bytes.len() < 4 {
        return None;
    }
    let (first, after_first) = split_digit(bytes)?;
    let Some((second, after_second)) = split_digit(after_first) else {
        return Some((first, after_first));
    };
    if first == 0 {
        return None;
    }
    let tens = 10 * first + second;
    let Some((third, after_third)) = split_digit(after_second) else {
        return Some((tens, after_second));
    };
    if split_digit(after_third).is_some() {
        return None;
    }
    Some((10 * tens + third, after_third))
}

/// The digit that `bytes` begin with, and the bytes after it.
#[inline(always)]
fn split_digit(bytes: &[u8]) -> Option<(u32, &[u8])>
    ensures { MatchOption result (NoDigit bytes.now)
        (λ found. (found.0 < 10) × (bytes.now ≡ (48 + found.0) ∷ found.1.now)) }
{
    match bytes.split_first() {
        Some((byte, rest)) if byte.is_ascii_digit() => Some((u32::from(*byte - b'0'), rest)),
        _ => None,
    }
}

/// All digits that `bytes` begin with, and the bytes after them.
fn split_digits(bytes: &[u8]) -> (&[u8], &[u8])
    ensures digits { AllDigits 10 result.0.now }
    ensures taken { bytes.now ≡ result.0.now ++ result.1.now }
    ensures all { NoDigit result.1.now }
{
    bytes.split_at(count_digits(bytes))
}

/// The number of digits that `bytes` begin with.
fn count_digits(bytes: &[u8]) -> usize
    ensures within { result ≤ length bytes.now }
    ensures count { result ≡ prefix_len is_ascii_digit bytes.now }
{
    bytes.iter().take_while(|b| b.is_ascii_digit()).count()
}

/// The number that `digits` spell, if it has no leading zero and fits.
fn value(digits: &[u8]) -> Option<u32>
    requires { AllDigits 10 digits.now }
    ensures { MatchOption result ((n : ℕ) → n < 2 ^ 32 → digits.now ≢ decimal n)
        (λ n. digits.now ≡ decimal n) }
{
    if digits.is_empty() {
        return None;
    }
    if digits.len() > 1 && digits[0] == b'0' {
        return None;
    }
    number_of(digits)
}

/// The value of `digits` in base ten, leading zeros included, if it fits.
fn number_of(digits: &[u8]) -> Option<u32>
    requires { AllDigits 10 digits.now }
    ensures { MatchOption result (2 ^ 32 ≤ digits_value 10 digits.now)
        (λ n. (n < 2 ^ 32) × (n ≡ digits_value 10 digits.now)) }
{
    let mut number: u32 = 0;
    for digit in digits {
        number = number.checked_mul(10)?.checked_add((digit - b'0') as u32)?;
    }
    Some(number)
}
