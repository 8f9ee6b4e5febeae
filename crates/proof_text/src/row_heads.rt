//! The heads of rows' lines.

ghost use Rattle.std.specs.Prelude.{◌≡◌, ◌+◌, ◌≤◌, ◌++◌, [], All, length, take};
ghost use Rattle.proof_text.specs.Inside.RowText.{bytes_of_word, row_head};
ghost use Rattle.std.specs.Str.{IsAscii};

use crate::row_text::{PlaceWords, Word};
use board_text::MAX_PEBBLES;
use std::marker::Model;

/// A bound on the bytes of a head, with room for a whole word after each.
pub(crate) const SIZE_OF_HEAD: usize = 32;

/// What the lines of rows begin with whose places are the same but for that of the last pebble:
/// a word, and the places of all other pebbles.
///
/// Contracts see the bytes.
#[derive(Drop)]
pub struct RowHead {
    /// The bytes after those of the head say nothing.
    bytes: [u8; SIZE_OF_HEAD],
    size: usize,
}

impl Model for RowHead {
    ghost use Rattle.std.specs.Prelude.{ℕ, List, take};
    ghost use Rattle.proof_text.specs.Inside.RowText.{IsRowHead};

    ghost Value = { List ℕ };

    ghost view = { λ h. take h.size h.bytes };

    ghost invariant = { λ h. IsRowHead h.bytes h.size };
}

impl RowHead {
    /// The head with these places of all pebbles but the last.
    pub fn of(words: &PlaceWords, places: &[u16]) -> RowHead
        requires few { length places.now ≤ MAX_PEBBLES }
        requires places { All (λ place. place ≤ words.now) places.now }
        ensures { result ≡ row_head words.now places.now }
    {
        let mut head = RowHead::word();
        for index in 0..places.len() {
            match words.word(places[index]) {
                Some(word) => head.push(word),
                None => unreachable!(),
            }
        }
        head
    }

    /// The bytes, and others after them.
    #[inline(always)]
    pub(crate) fn room(&self) -> &[u8; SIZE_OF_HEAD]
        ensures { take (length self.now) result.now ≡ self.now }
    {
        &self.bytes
    }

    /// How many bytes the head has.
    #[inline(always)]
    pub(crate) fn len(&self) -> usize
        ensures value { result ≡ length self.now }
        ensures few { result ≤ SIZE_OF_HEAD }
        ensures ascii { IsAscii self.now }
    {
        self.size
    }

    /// The word alone.
    fn word() -> RowHead
        ensures value { result ≡ row_head 0 [] }
    {
        let mut bytes = [b' '; SIZE_OF_HEAD];
        bytes[0] = b'a';
        bytes[1] = b't';
        RowHead { bytes, size: 2 }
    }

    /// Appends a word.
    fn push(&mut self, word: Word)
        requires room { length self.old + 4 ≤ SIZE_OF_HEAD }
        requires few { word.size ≤ 4 }
        requires ascii { IsAscii (bytes_of_word word) }
        ensures { self.new ≡ self.old ++ bytes_of_word word }
    {
        let size = self.size;
        self.bytes[size..size + 4].copy_from_slice(&word.bytes);
        self.size = size + word.size as usize;
    }
}
