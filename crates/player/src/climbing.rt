//! Plays on nested boards that are never built, with a person who is the adversary.

ghost use Rattle.std.specs.Prelude.{◌≡◌, ◌+◌, ◌<◌, ◌^◌, ℕ, replicate, false, IfOk, IfErr};
ghost use Rattle.std.specs.Prelude.{string_bytes};
ghost use Rattle.board_text.specs.Ranges.{InRange};
ghost use Rattle.nested_cycles.specs.NestedGame.{plain_game};
ghost use Rattle.board_text.specs.Streams.{bytes_of};
ghost use Rattle.player.specs.Laws.{KeepsToValue};
ghost use Rattle.player.specs.Play.{HasEnded, BreaksOff, TellsBothStreams};
ghost use Rattle.player.specs.Transcript.{IsPlayed, NestedReplies, PersonClimbs};
ghost use Rattle.player.specs.Inside.Transcript.{standing_of};
ghost use Rattle.player.specs.Inside.Steps.{AddsText};

use crate::end::{PlayEnd, PlayFault};
use crate::game::{Game, Opened, play};
use crate::line_meaning::LineMeaning;
use crate::nested_writing::{write_levels, write_nested_reply};
use crate::prompts::{PEBBLES_GREETING, tell_least, tell_pebble_choices};
use crate::turns::Play;
use crate::writing::{end_stopped, say_no_request};
use board_text::{Memory, Sink, Source, Through};
use nested_cycles::{MAX_LEVELS, NestedGame};
use positions::Value;
use std::alloc::{AllocError, Global};
use std::marker::Model;

/// Plays on the nested board of level `levels`, 1 to `MAX_LEVELS`, with as many pebbles as levels:
/// each line of the person names a pebble, which is put on the word of the nested reply.
///
/// The reader and the writer must not have failed before, nor the reader have reported its end.
/// The play ends with a line `quit`, or at the end of the input: some label is always legal.
/// A line of any other kind is answered and changes nothing.
/// Each answer is written before the next line is read.
pub fn play_nested<R: Source, W: Sink>(
    alloc: Global,
    levels: u8,
    reader: &mut R,
    writer: &mut W,
) -> Result<PlayEnd, PlayFault>
    requires level { InRange 1 MAX_LEVELS levels }
    requires reader_ready { R.has_failed reader.old ≡ false }
    requires reader_unended { R.has_ended reader.old ≡ false }
    requires writer_ready { W.has_failed writer.old ≡ false }
    ensures ok { IfOk result (HasEnded (IsPlayed (PersonClimbs levels))
        (bytes_of R.remaining reader.old reader.new)
        (bytes_of W.contents writer.old writer.new)) }
    ensures fault { IfErr result (BreaksOff (IsPlayed (PersonClimbs levels))
        (bytes_of R.remaining reader.old reader.new)
        (bytes_of W.contents writer.old writer.new)) }
    ensures value { IfOk result (KeepsToValue (PersonClimbs levels)) }
    ensures streams { TellsBothStreams result (R.has_failed reader.new) (W.has_failed writer.new) }
{
    let mut nobody = Through::new(Vec::new(alloc));
    play(
        alloc,
        &AsClimber::of(levels),
        reader,
        writer,
        false,
        &mut nobody,
    )
}

/// A game on the nested board of a level, with as many pebbles as levels: each line of the person
/// names a pebble, which is put on the word of the nested reply.
#[derive(Drop)]
pub struct AsClimber {
    levels: u8,
}

impl Model for AsClimber {
    ghost use Rattle.std.specs.Prelude.{ℕ};
    ghost use Rattle.board_text.specs.Ranges.{InRange};
    ghost use Rattle.nested_cycles.specs.declared.game.TheConstants.{MAX_LEVELS};

    ghost Value = { ℕ };

    ghost view = { λ g. g.levels };

    ghost invariant = { λ g. InRange 1 MAX_LEVELS g.levels };
}

impl AsClimber {
    /// The game on the nested board of level `levels`, 1 to `MAX_LEVELS`.
    pub fn of(levels: u8) -> AsClimber
        requires { InRange 1 MAX_LEVELS levels }
        ensures { result ≡ levels }
    {
        AsClimber { levels }
    }
}

impl Game for AsClimber {
    type Playing = Climb;

    ghost game = { λ levels. PersonClimbs levels };

    fn open(&self, alloc: Global, text: &mut String) -> Result<Opened<Climb>, Memory> {
        let play = Climb::new(alloc, self.levels)?;
        write_levels(text, self.levels, play.nested.words())?;
        Ok(Opened::Goes(play))
    }

    fn start_value(&self) -> Value {
        Value::Forever
    }
}

/// A play on a nested board.
#[derive(Drop)]
pub struct Climb {
    nested: NestedGame,
    /// The number of answered requests.
    requests: u32,
}

impl Climb {
    /// A play on the nested board of level `levels` before its first request:
    /// all pebbles are on the label 0.
    fn new(alloc: Global, levels: u8) -> Result<Climb, Memory>
        requires { InRange 1 MAX_LEVELS levels }
        ensures { IfOk result (λ play. (play.nested ≡ plain_game levels (replicate levels 0))
            × (play.requests ≡ 0)) }
    {
        let nested = NestedGame::new(alloc, levels)?;
        Ok(Climb {
            nested,
            requests: 0,
        })
    }

    /// Answers a request of `pebble`.
    fn request(&mut self, pebble: u8, text: &mut String) -> Result<Option<PlayEnd>, AllocError>
        requires pebble { pebble < self.old.nested.levels }
        requires few { self.old.requests + 1 < 2 ^ 32 }
        ensures levels { self.new.nested.levels ≡ self.old.nested.levels }
        ensures count { self.new.requests ≡ self.old.requests + 1 }
        ensures said { IfOk result (λ end. AddsText (string_bytes text.old) (string_bytes text.new)
            (λ said. NestedReplies self.old.nested.levels self.old.nested.words self.old.requests
            pebble said
            (standing_of end self.new.nested.words self.new.requests))) }
    {
        let levels = self.nested.levels();
        let word = self.nested.request(pebble);
        self.requests += 1;
        write_nested_reply(text, levels, pebble, word, self.nested.words())?;
        Ok(None)
    }
}

impl Play for Climb {
    ghost game = { λ s. PersonClimbs s.nested.levels };

    ghost at = { λ s. s.nested.words };

    ghost requests = { λ s. s.requests };

    fn reply(
        &mut self,
        meaning: LineMeaning,
        text: &mut String,
    ) -> Result<Option<PlayEnd>, AllocError> {
        let pebbles = u32::from(self.nested.levels());
        match meaning {
            LineMeaning::Number(number) => {
                if number < pebbles {
                    self.request(number as u8, text)
                } else {
                    say_no_request(text)
                }
            }
            LineMeaning::Quit => end_stopped(text, self.requests),
            LineMeaning::Other { .. } => say_no_request(text),
        }
    }

    fn requests(&self) -> u32 {
        self.requests
    }

    fn start_value(&self) -> Value {
        Value::Forever
    }

    fn greeting(&self) -> &'static str {
        PEBBLES_GREETING
    }

    fn tell_left<E: Sink>(&self, errors: &mut E) {
        tell_least(errors, Value::Forever);
    }

    fn tell_choices<E: Sink>(&self, errors: &mut E) {
        tell_pebble_choices(errors, self.nested.levels());
    }
}
