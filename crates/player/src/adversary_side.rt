//! Plays in which the person is the adversary.

ghost use Rattle.std.specs.Prelude.{◌≡◌, ◌+◌, ◌<◌, ◌≤◌, ◌^◌, false, None, IfOk, IfErr};
ghost use Rattle.std.specs.Prelude.{string_bytes};
ghost use Rattle.board_text.specs.Streams.{bytes_of};
ghost use Rattle.player.specs.Laws.{KeepsToValue};
ghost use Rattle.player.specs.Play.{HasEnded, BreaksOff, TellsBothStreams};
ghost use Rattle.player.specs.Transcript.{IsPlayed, PersonAsks, Replies};
ghost use Rattle.player.specs.Inside.Transcript.{standing_of};
ghost use Rattle.player.specs.Inside.Steps.{AddsText};

use crate::end::{PlayEnd, PlayFault};
use crate::game::{Game, Opened, play};
use crate::line_meaning::LineMeaning;
use crate::prompts::{PEBBLES_GREETING, tell_least, tell_pebble_choices};
use crate::turns::Play;
use crate::writing::{end_stopped, say_no_request, write_opening, write_reply, write_stuck};
use board_text::{Board, Memory, Sink, Source, Through};
use classes::Places;
use gap_values::ValueTable;
use positions::Value;
use solver::Values;
use std::alloc::{AllocError, Global};
use std::marker::Model;
use strategies::GapMoves;

/// Plays with a person who is the adversary: each line names a pebble, which is put on the label of
/// the best answer.
///
/// The `values` are those of `board`. The reader and the writer must not have failed before, nor
/// the reader have reported its end.
/// The play ends when no label is legal for a pebble, with a line `quit`, or at the end of the
/// input.
/// A line of any other kind is answered and changes nothing.
/// Each answer is written before the next line is read.
pub fn play_adversary_side<R: Source, W: Sink>(
    alloc: Global,
    board: &Board,
    values: &Values,
    reader: &mut R,
    writer: &mut W,
) -> Result<PlayEnd, PlayFault>
    requires same_board { values.now ≡ board.now }
    requires reader_ready { R.has_failed reader.old ≡ false }
    requires reader_unended { R.has_ended reader.old ≡ false }
    requires writer_ready { W.has_failed writer.old ≡ false }
    ensures ok { IfOk result (HasEnded (IsPlayed (PersonAsks board.now))
        (bytes_of R.remaining reader.old reader.new)
        (bytes_of W.contents writer.old writer.new)) }
    ensures fault { IfErr result (BreaksOff (IsPlayed (PersonAsks board.now))
        (bytes_of R.remaining reader.old reader.new)
        (bytes_of W.contents writer.old writer.new)) }
    ensures value { IfOk result (KeepsToValue (PersonAsks board.now)) }
    ensures streams { TellsBothStreams result (R.has_failed reader.new) (W.has_failed writer.new) }
{
    let moves = GapMoves::new(board, values);
    let mut nobody = Through::new(Vec::new(alloc));
    let game = AsAdversary { moves: &moves };
    play(alloc, &game, reader, writer, false, &mut nobody)
}

/// A game in which the person is the adversary: each line names a pebble, which is put on the label
/// of the best answer.
#[derive(Clone, Copy)]
pub struct AsAdversary<'a, V: ValueTable> {
    /// The best moves on the board.
    pub moves: &'a GapMoves<'a, V>,
}

impl<'a, V: ValueTable> Game for AsAdversary<'a, V> {
    type Playing = AdversarySide<'a, V>;

    ghost game = { λ g. PersonAsks g.moves.now };

    fn open(
        &self,
        _alloc: Global,
        text: &mut String,
    ) -> Result<Opened<AdversarySide<'a, V>>, Memory> {
        write_opening(text, self.moves.board(), self.start_value())?;
        Ok(Opened::Goes(AdversarySide::new(self.moves)))
    }

    fn start_value(&self) -> Value {
        self.moves.value(self.moves.board().start())
    }
}

/// A play in which the person is the adversary.
#[derive(Drop)]
pub struct AdversarySide<'a, V: ValueTable> {
    moves: &'a GapMoves<'a, V>,
    configuration: Places,
    /// The number of answered requests.
    requests: u32,
}

impl<'a, V: ValueTable> Model for AdversarySide<'a, V> {
    ghost use Rattle.board_text.specs.PlainBoard.{IsConfiguration};
    ghost use Rattle.player.specs.Inside.PlayState.{PlayState};

    ghost Value = { PlayState };

    ghost view = { λ s. record {
      board = s.moves.now;
      at = s.configuration;
      requests = s.requests;
    } };

    ghost invariant = { λ s. IsConfiguration s.moves.now s.configuration };
}

impl<'a, V: ValueTable> AdversarySide<'a, V> {
    /// A play at the start, in which no request was answered yet.
    fn new(moves: &'a GapMoves<'a, V>) -> AdversarySide<'a, V>
        ensures { result ≡ record {
          board = moves.now;
          at = moves.now.start;
          requests = 0;
        } }
    {
        let configuration = Places::of(moves.board().start());
        AdversarySide {
            moves,
            configuration,
            requests: 0,
        }
    }

    /// Answers a request of `pebble`; if no label is legal, the play is over.
    fn request(&mut self, pebble: u8, text: &mut String) -> Result<Option<PlayEnd>, AllocError>
        requires pebble { pebble < self.old.board.pebbles }
        requires few { self.old.requests + 1 < 2 ^ 32 }
        ensures board { self.new.board ≡ self.old.board }
        ensures count { self.new.requests ≤ self.old.requests + 1 }
        ensures said { IfOk result (λ end. AddsText (string_bytes text.old) (string_bytes text.new)
            (λ said. Replies self.old.board self.old.at self.old.requests pebble said
            (standing_of end self.new.at self.new.requests))) }
    {
        let board = self.moves.board();
        match self.moves.answer(self.configuration.as_slice(), pebble) {
            Some(label) => {
                self.configuration = self.configuration.with(pebble, label);
                self.requests += 1;
                write_reply(text, board, pebble, label, self.configuration.as_slice())?;
                Ok(None)
            }
            None => {
                write_stuck(text, pebble, self.requests)?;
                Ok(Some(PlayEnd::Stuck {
                    requests: self.requests,
                }))
            }
        }
    }
}

impl<V: ValueTable> Play for AdversarySide<'_, V> {
    ghost game = { λ s. PersonAsks s.board };

    ghost at = { λ s. s.at };

    ghost requests = { λ s. s.requests };

    fn reply(
        &mut self,
        meaning: LineMeaning,
        text: &mut String,
    ) -> Result<Option<PlayEnd>, AllocError> {
        let pebbles = u32::from(self.moves.board().pebbles());
        match meaning {
            LineMeaning::Number(number) => {
                if number < pebbles {
                    self.request(number as u8, text)
                } else {
                    say_no_request(text)
                }
            }
            LineMeaning::Quit => end_stopped(text, self.requests),
            LineMeaning::Other { .. } => say_no_request(text),
        }
    }

    fn requests(&self) -> u32 {
        self.requests
    }

    fn start_value(&self) -> Value {
        self.moves.value(self.moves.board().start())
    }

    fn greeting(&self) -> &'static str {
        PEBBLES_GREETING
    }

    fn tell_left<E: Sink>(&self, errors: &mut E) {
        tell_least(errors, self.moves.value(self.configuration.as_slice()));
    }

    fn tell_choices<E: Sink>(&self, errors: &mut E) {
        tell_pebble_choices(errors, self.moves.board().pebbles());
    }
}
