//! The lines of a reader, one by one.

ghost use Rattle.std.specs.Prelude.{◌≡◌, ◌≢◌, ◌+◌, ◌≤◌, ◌<◌, ◌↔◌, [], length, take, drop};
ghost use Rattle.std.specs.Prelude.{slice_index, true, false, Err, IfOk, IfErr};
ghost use Rattle.std.specs.Prelude.{OnOk, OnErr, MatchOption};
ghost use Rattle.board_text.specs.Streams.{AreAsBefore, bytes_of};
ghost use Rattle.player.specs.Words.{HasNoFeed};
ghost use Rattle.player.specs.Inside.Words.{Spells};
ghost use Rattle.player.specs.Inside.LineInput.{IsEmptyAtEnd, GivesLine, GivesNoLine, IsFilled};
ghost use Rattle.player.specs.declared.end.PlayFault.TheVariants.{Read};

use crate::end::PlayFault;
use crate::line_meaning::LineMeaning;
use board_text::{Failed, Source};
use std::marker::Model;

/// The largest number of bytes of a line, without its line feed.
pub(crate) const MOST_BYTES: usize = 64;

/// The largest number of bytes that are read at a time.
const SIZE: usize = 4096;

/// The bytes that were read and aren't taken yet.
///
/// At the end of the input, bytes after the last line feed are a line too.
#[derive(Drop)]
pub(crate) struct Lines {
    buffer: [u8; SIZE],
    from: usize,
    to: usize,
    has_ended: bool,
}

impl Model for Lines {
    ghost use Rattle.std.specs.Prelude.{drop, take, length};
    ghost use Rattle.player.specs.Inside.LineInput.{Unread, IsPart};

    ghost Value = { Unread };

    ghost view = { λ s.
        record { bytes = drop s.from (take s.to s.buffer); has_ended = s.has_ended } };

    ghost invariant = { λ s. IsPart s.from s.to (length s.buffer) };
}

impl Lines {
    /// An empty buffer: no byte is read yet.
    pub(crate) fn new() -> Lines
        ensures { result ≡ record { bytes = []; has_ended = false } }
    {
        Lines {
            buffer: [0; SIZE],
            from: 0,
            to: 0,
            has_ended: false,
        }
    }

    /// The meaning of the next line, or `None` at the end. `reader` is asked only if no whole line
    /// is left. The fault is `Read` if it failed, and `Limit` if the line is too long.
    pub(crate) fn next<R: Source>(
        &mut self,
        reader: &mut R,
    ) -> Result<Option<LineMeaning>, PlayFault>
        requires ready { R.has_failed reader.old ≡ false }
        requires ended { R.has_ended reader.old ≡ self.old.has_ended }
        requires end { IsEmptyAtEnd self.old (R.remaining reader.old) }
        ensures line { IfOk result (GivesLine self.old self.new
            (bytes_of R.remaining reader.old reader.new)) }
        ensures unfailed { OnOk result (R.has_failed reader.new ≡ false) }
        ensures ended { OnOk result (R.has_ended reader.new ≡ self.new.has_ended) }
        ensures fault { IfErr result (GivesNoLine self.old
            (bytes_of R.remaining reader.old reader.new)) }
        ensures read { (R.has_failed reader.new ≡ true) ↔ (result ≡ Err Read) }
    {
        if self.has_ended {
            return Ok(None);
        }
        loop {
            let size = line_size(self.unread());
            if size > MOST_BYTES {
                return Err(PlayFault::Limit);
            }
            if size < self.unread().len() {
                return Ok(Some(self.take_line(size)));
            }
            if !self.fill(reader)? {
                return Ok(self.take_last());
            }
        }
    }

    /// The bytes that were read and aren't taken yet.
    fn unread(&self) -> &[u8]
        ensures { result.now ≡ self.now.bytes }
    {
        &self.buffer[self.from..self.to]
    }

    /// Takes the first line, of `size` bytes, with its line feed, and returns its meaning.
    fn take_line(&mut self, size: usize) -> LineMeaning
        requires inside { size < length self.old.bytes }
        ensures meaning { Spells (take size self.old.bytes) result }
        ensures rest { self.new.bytes ≡ drop (size + 1) self.old.bytes }
        ensures same { self.new.has_ended ≡ self.old.has_ended }
    {
        let meaning = LineMeaning::of(&self.unread()[..size]);
        self.from += size + 1;
        meaning
    }

    /// Takes the remaining bytes as the last line;
    /// returns its meaning, or `None` if there are none.
    fn take_last(&mut self) -> Option<LineMeaning>
        ensures nothing_left { self.new.bytes ≡ [] }
        ensures same { self.new.has_ended ≡ self.old.has_ended }
        ensures meaning { MatchOption result (self.old.bytes ≡ [])
            (λ meaning. Spells self.old.bytes meaning × (self.old.bytes ≢ [])) }
    {
        if self.unread().is_empty() {
            return None;
        }
        let meaning = LineMeaning::of(self.unread());
        self.from = self.to;
        Some(meaning)
    }

    /// Reads once from `reader`, after the bytes that aren't taken yet; `false` at the end.
    fn fill<R: Source>(&mut self, reader: &mut R) -> Result<bool, PlayFault>
        requires short { length self.old.bytes ≤ MOST_BYTES }
        requires goes_on { self.old.has_ended ≡ false }
        requires unfailed { R.has_failed reader.old ≡ false }
        requires unended { R.has_ended reader.old ≡ false }
        ensures filled { IfOk result (IsFilled self.old self.new
            (bytes_of R.remaining reader.old reader.new)) }
        ensures unfailed { OnOk result (R.has_failed reader.new ≡ false) }
        ensures ended { OnOk result (R.has_ended reader.new ≡ self.new.has_ended) }
        ensures kept { OnErr result (AreAsBefore (bytes_of R.remaining reader.old reader.new)) }
        ensures read { IfErr result (λ fault. (fault ≡ Read) × (R.has_failed reader.new ≡ true)) }
    {
        self.buffer.copy_within(self.from..self.to, 0);
        self.to -= self.from;
        self.from = 0;
        match reader.read(&mut self.buffer[self.to..]) {
            Ok(0) => {
                self.has_ended = true;
                Ok(false)
            }
            Ok(count) => {
                self.to += count;
                Ok(true)
            }
            Err(Failed) => Err(PlayFault::Read),
        }
    }
}

/// The number of bytes before the first line feed, or of all if there is none.
fn line_size(bytes: &[u8]) -> usize
    ensures within { result ≤ length bytes.now }
    ensures inside { HasNoFeed (take result bytes.now) }
    ensures feed { result < length bytes.now → slice_index bytes.now result ≡ 10 }
{
    bytes.iter().take_while(|byte| **byte != b'\n').count()
}
