//! Games with a person, who is the adversary, the labeller, or the adversary on a nested board.

ghost use Rattle.std.specs.Prelude.{◌≡◌, ℕ, List, false, IfOk, IfErr, string_bytes};
ghost use Rattle.console.specs.Showing.{IsMore};
ghost use Rattle.board_text.specs.Streams.{bytes_of};
ghost use Rattle.player.specs.Laws.{KeepsToValue};
ghost use Rattle.player.specs.Opened.{StandsAt};
ghost use Rattle.player.specs.Play.{HasEnded, BreaksOff, TellsBothStreams};
ghost use Rattle.player.specs.Prompts.{ArePrompts, HasValueIn, start_of};
ghost use Rattle.player.specs.Transcript.{BeginsPlay, Game as GameData, IsPlayed, Standing};
ghost use Rattle.player.specs.Inside.Steps.{AddsText};

use crate::end::{PlayEnd, PlayFault};
use crate::prompts::tell_last;
use crate::turns::{Play, flush, play_on};
use board_text::{Memory, Sink, Source};
use positions::Value;
use std::alloc::Global;

/// How a play stands once its opening is written.
#[derive(Drop)]
pub enum Opened<P> {
    /// It goes on with the lines of the person.
    Goes(P),
    /// It is over before a line is read.
    Ends(PlayEnd),
}

/// A game with a person: who the person is, and the board.
pub trait Game {
    /// The play, from its opening on.
    type Playing: Play + Drop;

    ghost game: { Self → GameData };

    /// Appends the opening; returns how the play stands then.
    fn open(&self, alloc: Global, text: &mut String) -> Result<Opened<Self::Playing>, Memory>
        ensures begins { (said : List ℕ) × (to : Standing) × BeginsPlay (game self.now) said to }
        ensures said { IfOk result (λ opened. AddsText (string_bytes text.old)
            (string_bytes text.new) (λ said. (to : Standing) × BeginsPlay (game self.now) said to
            × StandsAt Self.Playing.game Self.Playing.at Self.Playing.requests (game self.now)
            opened to)) };

    /// The value of the start.
    fn start_value(&self) -> Value
        ensures { HasValueIn (game self.now) (start_of (game self.now)) result };
}

/// Plays `game` with a person, whose lines are those of `reader`.
///
/// The reader and the writer must not have failed before, nor the reader have reported its end.
/// The play ends when no label is legal for the pebble that is asked for, with a line `quit`, or
/// at the end of the input. If the person is the labeller and the value is forever it ends before
/// a line is read. A line of any other kind is answered and changes nothing. Each answer is
/// written before the next line is read.
///
/// If `shows` says so, the person is told on `errors`: a greeting, before each line how many more
/// requests are answered and what can be typed, after a line with a space or a tab that it has one,
/// and at the end that the play could have gone on, if fewer requests were answered than the value
/// of the start has, or that better requests would have ended it, if more were. If `errors` fails,
/// or has failed before, nothing more is written there, and the play goes on.
pub fn play<G: Game, R: Source, W: Sink, E: Sink>(
    alloc: Global,
    game: &G,
    reader: &mut R,
    writer: &mut W,
    shows: bool,
    errors: &mut E,
) -> Result<PlayEnd, PlayFault>
    requires reader_ready { R.has_failed reader.old ≡ false }
    requires reader_unended { R.has_ended reader.old ≡ false }
    requires writer_ready { W.has_failed writer.old ≡ false }
    ensures ok { IfOk result (HasEnded (IsPlayed (G.game game.now))
        (bytes_of R.remaining reader.old reader.new)
        (bytes_of W.contents writer.old writer.new)) }
    ensures fault { IfErr result (BreaksOff (IsPlayed (G.game game.now))
        (bytes_of R.remaining reader.old reader.new)
        (bytes_of W.contents writer.old writer.new)) }
    ensures value { IfOk result (KeepsToValue (G.game game.now)) }
    ensures streams { TellsBothStreams result (R.has_failed reader.new) (W.has_failed writer.new) }
    ensures prompts { (told : List ℕ) × ArePrompts shows (G.game game.now)
        (bytes_of R.remaining reader.old reader.new)
        (bytes_of W.contents writer.old writer.new) result told
        × IsMore E.contents E.has_failed errors.old errors.new told }
{
    let mut text = String::new(alloc);
    let Ok(opened) = game.open(alloc, &mut text) else {
        return Err(PlayFault::Memory);
    };
    flush(&mut text, writer)?;
    match opened {
        Opened::Goes(mut play) => { play_on(&mut play, &mut text, reader, writer, shows, errors) }
        Opened::Ends(end) => {
            tell_last(game.start_value(), end, shows, errors);
            Ok(end)
        }
    }
}
