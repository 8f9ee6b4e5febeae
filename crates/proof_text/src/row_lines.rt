//! The lines of a document, as they are appended to a text.

ghost use Rattle.std.specs.Prelude.{◌≡◌, ◌+◌, ◌*◌, ◌≤◌, ◌++◌, ◌∷◌, ℕ, List, [], length, OnOk};
ghost use Rattle.board_text.specs.BoardText.{end_line};
ghost use Rattle.board_text.specs.LineForms.{number_line};
ghost use Rattle.board_text.specs.PlaceForms.{spaced_places};
ghost use Rattle.board_text.specs.PlainBoard.{PlainBoard};
ghost use Rattle.proof_text.specs.ProofText.{answer_line, request_line, class_request_line};
ghost use Rattle.proof_text.specs.Inside.RowText.{end_of_answer, row_head};

use crate::row_heads::RowHead;
use crate::row_text::{PlaceWords, ROOM, RowText, SIZE_OF_NUMBER};
use board_text::MAX_PEBBLES;
use itoa::Buffer;
use positions::Turns;
use std::alloc::AllocError;

/// A bound on the bytes of a row's line: of its words, its places and a number for each side.
const SIZE_OF_LINE: usize = 20 + 14 * SIZE_OF_NUMBER;

impl RowText {
    /// Appends the first line of a section of `count` rows, whose word is `word`.
    pub fn push_head(&mut self, word: &str, count: usize) -> Result<(), AllocError>
        ensures { OnOk result (self.new.bytes ≡ self.old.bytes ++ number_line word.now count) }
    {
        self.push_text(word)?;
        self.push_str(" ")?;
        self.push_str(Buffer::new().format(count))?;
        self.push_str("\n")
    }

    /// Appends the line of a labeller's row with these values.
    pub fn push_answer(
        &mut self,
        words: &PlaceWords,
        at: &[u16],
        turns: Turns,
        take: &[u16],
    ) -> Result<(), AllocError>
        ensures { OnOk result ((board : PlainBoard) → words.now ≡ board.labels
            → self.new.bytes ≡ self.old.bytes
            ++ answer_line board (record { at = at.now; turns = turns; answers = take.now })) }
    {
        if at.len() > MAX_PEBBLES || take.len() > MAX_PEBBLES {
            return self.push_long_answer(words, at, turns, take);
        }
        self.make_room(SIZE_OF_LINE)?;
        self.put_str("at");
        self.put_places(words, at);
        self.put_answers(words, turns, take);
        Ok(())
    }

    /// Appends the same line where `head` has the word and all places but `last`.
    pub fn push_answer_after(
        &mut self,
        words: &PlaceWords,
        head: &RowHead,
        last: u16,
        turns: Turns,
        take: &[u16],
    ) -> Result<(), AllocError>
        requires { length take.now ≤ MAX_PEBBLES }
        ensures { OnOk result ((board : PlainBoard) → (others : List ℕ)
            → words.now ≡ board.labels → head.now ≡ row_head board.labels others
            → self.new.bytes ≡ self.old.bytes ++ answer_line board (record {
              at = others ++ last ∷ [];
              turns = turns;
              answers = take.now;
            })) }
    {
        self.make_room(SIZE_OF_LINE)?;
        self.put_head(head);
        self.put_place(words, last);
        self.put_answers(words, turns, take);
        Ok(())
    }

    /// Appends what a labeller's row has after its places, for which there is room.
    #[inline(always)]
    fn put_answers(&mut self, words: &PlaceWords, turns: Turns, take: &[u16])
        requires room { self.old.count + 10 + (length take.now + 1) * SIZE_OF_NUMBER ≤ ROOM }
        ensures { (board : PlainBoard) → words.now ≡ board.labels
            → self.new.bytes ≡ self.old.bytes ++ end_of_answer board turns take.now }
    {
        self.put_str(" for");
        match turns {
            Turns::Count(number) => self.put_number(words, number),
            Turns::Always => self.put_str(" *"),
        }
        self.put_str(" take");
        self.put_places(words, take);
        self.put_str("\n");
    }

    /// The same, for any number of places.
    #[cold]
    fn push_long_answer(
        &mut self,
        words: &PlaceWords,
        at: &[u16],
        turns: Turns,
        take: &[u16],
    ) -> Result<(), AllocError>
        ensures { OnOk result ((board : PlainBoard) → words.now ≡ board.labels
            → self.new.bytes ≡ self.old.bytes
            ++ answer_line board (record { at = at.now; turns = turns; answers = take.now })) }
    {
        self.push_str("at")?;
        self.push_places(words, at)?;
        self.push_str(" for")?;
        match turns {
            Turns::Count(number) => self.push_number(number)?,
            Turns::Always => self.push_str(" *")?,
        }
        self.push_str(" take")?;
        self.push_places(words, take)?;
        self.push_str("\n")
    }

    /// Appends the line of an adversary's row with these values, in a document by configurations.
    pub fn push_request(
        &mut self,
        words: &PlaceWords,
        at: &[u16],
        left: u32,
        ask: u8,
    ) -> Result<(), AllocError>
        ensures { OnOk result ((board : PlainBoard) → words.now ≡ board.labels
            → self.new.bytes ≡ self.old.bytes
            ++ request_line board (record { at = at.now; left = left; request = ask })) }
    {
        if at.len() > MAX_PEBBLES {
            return self.push_long_request(words, at, left, ask);
        }
        self.make_room(SIZE_OF_LINE)?;
        self.put_str("at");
        self.put_places(words, at);
        self.put_str(" for");
        self.put_number(words, left);
        self.put_str(" ask");
        self.put_number(words, u32::from(ask));
        self.put_str("\n");
        Ok(())
    }

    /// The same, for any number of places.
    #[cold]
    fn push_long_request(
        &mut self,
        words: &PlaceWords,
        at: &[u16],
        left: u32,
        ask: u8,
    ) -> Result<(), AllocError>
        ensures { OnOk result ((board : PlainBoard) → words.now ≡ board.labels
            → self.new.bytes ≡ self.old.bytes
            ++ request_line board (record { at = at.now; left = left; request = ask })) }
    {
        self.push_str("at")?;
        self.push_places(words, at)?;
        self.push_str(" for")?;
        self.push_number(left)?;
        self.push_str(" ask")?;
        self.push_number(u32::from(ask))?;
        self.push_str("\n")
    }

    /// Appends the line of an adversary's row with these values, in a document by classes.
    pub(crate) fn push_class_request(
        &mut self,
        words: &PlaceWords,
        at: &[u16],
        left: u32,
        ask: u16,
    ) -> Result<(), AllocError>
        ensures { OnOk result ((board : PlainBoard) → words.now ≡ board.labels
            → self.new.bytes ≡ self.old.bytes
            ++ class_request_line board (record { at = at.now; left = left; request = ask })) }
    {
        self.push_str("at")?;
        self.push_places(words, at)?;
        self.push_str(" for")?;
        self.push_number(left)?;
        self.push_str(" ask")?;
        self.push_place(words, ask)?;
        self.push_str("\n")
    }

    /// Appends the last line of a document.
    pub fn push_end(&mut self) -> Result<(), AllocError>
        ensures { OnOk result (self.new.bytes ≡ self.old.bytes ++ end_line) }
    {
        self.push_str("end\n")
    }

    /// Appends `places`, each with a space before it. There is room for as many numbers.
    #[inline(always)]
    fn put_places(&mut self, words: &PlaceWords, places: &[u16])
        requires { self.old.count + length places.now * SIZE_OF_NUMBER ≤ ROOM }
        ensures bytes { self.new.bytes ≡ self.old.bytes ++ spaced_places words.now places.now }
        ensures count { self.new.count ≤ self.old.count + length places.now * SIZE_OF_NUMBER }
    {
        for place in places {
            self.put_place(words, *place);
        }
    }

    /// Appends `places`, each with a space before it.
    fn push_places(&mut self, words: &PlaceWords, places: &[u16]) -> Result<(), AllocError>
        ensures { OnOk result
            (self.new.bytes ≡ self.old.bytes ++ spaced_places words.now places.now) }
    {
        for place in places {
            self.push_place(words, *place)?;
        }
        Ok(())
    }
}
