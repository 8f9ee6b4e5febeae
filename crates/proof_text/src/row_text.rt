//! Text to which rows append words of up to four bytes, which are gathered a few rows at once.

ghost use Rattle.std.specs.Prelude.{◌≡◌, ◌+◌, ◌<◌, ◌≤◌, ◌++◌, ◌∷◌, length, IfOk, IfSome};
ghost use Rattle.std.specs.Prelude.{MatchOption, OnOk, string_bytes};
ghost use Rattle.std.specs.Fmt.{decimal};
ghost use Rattle.std.specs.Str.{IsAscii};
ghost use Rattle.board_text.specs.PlaceForms.{place_word};
ghost use Rattle.proof_text.specs.Inside.RowText.{IsWordWith, bytes_of_word};

use crate::row_heads::{RowHead, SIZE_OF_HEAD};
use board_text::Memory;
use itoa::Buffer;
use std::alloc::{AllocError, Global};
use std::marker::Model;

/// The number of bytes that are gathered before they are appended to the text.
pub(crate) const ROOM: usize = 1024;

/// A bound on the bytes of a number and a space before it.
pub(crate) const SIZE_OF_NUMBER: usize = 41;

/// A space and the text of a number or a place, of up to four bytes in all.
#[derive(Clone, Copy)]
pub(crate) struct Word {
    /// The bytes after those of the word are spaces.
    pub(crate) bytes: [u8; 4],
    pub(crate) size: u32,
}

impl Word {
    /// The word of a number below 1000.
    fn of(number: u32) -> Word
        requires { number < 1000 }
        ensures { IsWordWith (32 ∷ decimal number) result }
    {
        let ones = b'0' + (number % 10) as u8;
        let tens = b'0' + (number / 10 % 10) as u8;
        let hundreds = b'0' + (number / 100) as u8;
        if number < 10 {
            return Word {
                bytes: [b' ', ones, b' ', b' '],
                size: 2,
            };
        }
        if number < 100 {
            return Word {
                bytes: [b' ', tens, ones, b' '],
                size: 3,
            };
        }
        Word {
            bytes: [b' ', hundreds, tens, ones],
            size: 4,
        }
    }
}

/// The words of all places of a board.
///
/// Contracts see the number of labels.
#[derive(Drop)]
pub struct PlaceWords {
    labels: u16,
    words: Vec<Word>,
}

impl Model for PlaceWords {
    ghost use Rattle.std.specs.Prelude.{ℕ};
    ghost use Rattle.proof_text.specs.Inside.RowText.{ArePlaceWords};

    ghost Value = { ℕ };

    ghost view = { λ s. s.labels };

    ghost invariant = { λ s. ArePlaceWords s.labels s.words.items };
}

impl PlaceWords {
    /// The words of the labels below `labels`, and of the place without a label.
    pub fn of(alloc: Global, labels: u16) -> Result<PlaceWords, Memory>
        requires { labels < 1000 }
        ensures { IfOk result (λ words. words ≡ labels) }
    {
        let mut words = Vec::with_capacity(alloc, labels as usize + 1)?;
        for label in 0..labels {
            words.push(Word::of(label as u32))?;
        }
        words.push(Word {
            bytes: [b' ', b'-', b' ', b' '],
            size: 2,
        })?;
        Ok(PlaceWords { labels, words })
    }

    /// The word of `number`, if it is a label.
    fn number(&self, number: u32) -> Option<Word>
        ensures { IfSome result (IsWordWith (32 ∷ decimal number)) }
    {
        if number >= self.labels as u32 {
            return None;
        }
        Some(self.words[number as usize])
    }

    /// The word of `place`, if it is one of the board.
    pub(crate) fn word(&self, place: u16) -> Option<Word>
        ensures { MatchOption result (self.now < place)
            (IsWordWith (32 ∷ place_word self.now place)) }
    {
        if place > self.labels {
            return None;
        }
        Some(self.words[place as usize])
    }
}

/// A text, and bytes that are to come after it.
///
/// Contracts see the bytes of both, and how many of them are to come.
#[derive(Drop)]
pub struct RowText {
    written: Vec<u8>,
    room: [u8; ROOM],
    count: usize,
}

impl Model for RowText {
    ghost use Rattle.std.specs.Prelude.{◌++◌, take};
    ghost use Rattle.proof_text.specs.RowText.{RowBytes};
    ghost use Rattle.proof_text.specs.Inside.RowText.{IsGathered};

    ghost Value = { RowBytes };

    ghost view = { λ s. record {
      bytes = s.written.items ++ take s.count s.room;
      count = s.count;
    } };

    ghost invariant = { λ s. IsGathered s.written.items s.room s.count };
}

impl RowText {
    /// The bytes of `text`, in its room.
    pub fn new(text: String) -> RowText
        ensures { result.bytes ≡ string_bytes text }
    {
        RowText {
            written: text.into_bytes(),
            room: [0; ROOM],
            count: 0,
        }
    }

    /// Appends the gathered bytes to the text.
    #[cold]
    #[inline(never)]
    fn flush(&mut self) -> Result<(), AllocError>
        ensures bytes { OnOk result (self.new.bytes ≡ self.old.bytes) }
        ensures room { OnOk result (self.new.count ≡ 0) }
    {
        self.written.extend_from_slice(&self.room[..self.count])?;
        self.count = 0;
        Ok(())
    }

    /// Appends a word.
    fn push_word(&mut self, word: Word) -> Result<(), AllocError>
        requires few { word.size ≤ 4 }
        requires ascii { IsAscii (bytes_of_word word) }
        ensures { OnOk result (self.new.bytes ≡ self.old.bytes ++ bytes_of_word word) }
    {
        if self.count + 4 > ROOM {
            self.flush()?;
        }
        self.put(word);
        Ok(())
    }

    /// Appends a word, for which there is room.
    fn put(&mut self, word: Word)
        requires room { self.old.count + 4 ≤ ROOM }
        requires few { word.size ≤ 4 }
        requires ascii { IsAscii (bytes_of_word word) }
        ensures bytes { self.new.bytes ≡ self.old.bytes ++ bytes_of_word word }
        ensures count { self.new.count ≡ self.old.count + word.size }
    {
        let count = self.count;
        self.room[count..count + 4].copy_from_slice(&word.bytes);
        self.count = count + word.size as usize;
    }

    /// Appends a head, for which there is room.
    #[inline(always)]
    pub(crate) fn put_head(&mut self, head: &RowHead)
        requires { self.old.count + SIZE_OF_HEAD ≤ ROOM }
        ensures bytes { self.new.bytes ≡ self.old.bytes ++ head.now }
        ensures count { self.new.count ≤ self.old.count + SIZE_OF_HEAD }
    {
        let count = self.count;
        self.room[count..count + SIZE_OF_HEAD].copy_from_slice(head.room());
        self.count = count + head.len();
    }

    /// Makes room for `size` bytes.
    #[inline(always)]
    pub(crate) fn make_room(&mut self, size: usize) -> Result<(), AllocError>
        requires { size ≤ ROOM }
        ensures bytes { OnOk result (self.new.bytes ≡ self.old.bytes) }
        ensures room { OnOk result (self.new.count + size ≤ ROOM) }
    {
        if self.count + size > ROOM {
            self.flush()?;
        }
        Ok(())
    }

    /// Appends `text`, which has few bytes: their number is known where this is called.
    #[inline(always)]
    pub(crate) fn push_str(&mut self, text: &str) -> Result<(), AllocError>
        requires { length text.now ≤ ROOM }
        ensures { OnOk result (self.new.bytes ≡ self.old.bytes ++ text.now) }
    {
        self.make_room(text.len())?;
        self.put_str(text);
        Ok(())
    }

    /// The same, if there is room.
    #[inline(always)]
    pub(crate) fn put_str(&mut self, text: &str)
        requires { self.old.count + length text.now ≤ ROOM }
        ensures bytes { self.new.bytes ≡ self.old.bytes ++ text.now }
        ensures count { self.new.count ≡ self.old.count + length text.now }
    {
        let bytes = text.as_bytes();
        let end = self.count + bytes.len();
        self.room[self.count..end].copy_from_slice(bytes);
        self.count = end;
    }

    /// Appends `text`, however long it is.
    pub(crate) fn push_text(&mut self, text: &str) -> Result<(), AllocError>
        ensures { OnOk result (self.new.bytes ≡ self.old.bytes ++ text.now) }
    {
        self.flush()?;
        self.written.extend_from_slice(text.as_bytes())
    }

    /// Appends all of `other`.
    pub(crate) fn push_all(&mut self, other: &RowText) -> Result<(), AllocError>
        ensures { OnOk result (self.new.bytes ≡ self.old.bytes ++ other.now.bytes) }
    {
        self.flush()?;
        self.written.extend_from_slice(&other.written)?;
        self.written.extend_from_slice(&other.room[..other.count])
    }

    /// Appends a place with a space before it.
    pub(crate) fn push_place(&mut self, words: &PlaceWords, place: u16) -> Result<(), AllocError>
        ensures { OnOk result
            (self.new.bytes ≡ self.old.bytes ++ 32 ∷ place_word words.now place) }
    {
        match words.word(place) {
            Some(word) => self.push_word(word),
            None => self.push_number(u32::from(place)),
        }
    }

    /// Appends a number with a space before it.
    pub(crate) fn push_number(&mut self, number: u32) -> Result<(), AllocError>
        ensures { OnOk result (self.new.bytes ≡ self.old.bytes ++ 32 ∷ decimal number) }
    {
        if number < 1000 {
            return self.push_word(Word::of(number));
        }
        self.push_str(" ")?;
        self.push_str(Buffer::new().format(number))
    }

    /// Appends a place with a space before it, for which there is room.
    #[inline(always)]
    pub(crate) fn put_place(&mut self, words: &PlaceWords, place: u16)
        requires { self.old.count + SIZE_OF_NUMBER ≤ ROOM }
        ensures bytes { self.new.bytes ≡ self.old.bytes ++ 32 ∷ place_word words.now place }
        ensures count { self.new.count ≤ self.old.count + SIZE_OF_NUMBER }
    {
        match words.word(place) {
            Some(word) => self.put(word),
            None => self.put_any_number(u32::from(place)),
        }
    }

    /// Appends a number with a space before it, for which there is room.
    #[inline(always)]
    pub(crate) fn put_number(&mut self, words: &PlaceWords, number: u32)
        requires { self.old.count + SIZE_OF_NUMBER ≤ ROOM }
        ensures bytes { self.new.bytes ≡ self.old.bytes ++ 32 ∷ decimal number }
        ensures count { self.new.count ≤ self.old.count + SIZE_OF_NUMBER }
    {
        match words.number(number) {
            Some(word) => self.put(word),
            None => self.put_any_number(number),
        }
    }

    /// The same, without words.
    #[inline(never)]
    fn put_any_number(&mut self, number: u32)
        requires { self.old.count + SIZE_OF_NUMBER ≤ ROOM }
        ensures bytes { self.new.bytes ≡ self.old.bytes ++ 32 ∷ decimal number }
        ensures count { self.new.count ≤ self.old.count + SIZE_OF_NUMBER }
    {
        if number < 1000 {
            self.put(Word::of(number));
            return;
        }
        self.put_str(" ");
        self.put_str(Buffer::new().format(number));
    }

    /// The bytes of the whole text.
    pub fn finish(self) -> Result<Vec<u8>, AllocError>
        ensures { IfOk result (λ bytes. bytes.items ≡ self.bytes) }
    {
        let mut whole = self;
        whole.flush()?;
        Ok(whole.written)
    }

    /// The whole text.
    pub(crate) fn finish_text(self) -> Result<String, AllocError>
        ensures { IfOk result (λ text. string_bytes text ≡ self.bytes) }
    {
        let mut whole = self;
        whole.flush()?;
        match String::from_utf8(whole.written) {
            Ok(text) => Ok(text),
            Err(_) => unreachable!(),
        }
    }
}
