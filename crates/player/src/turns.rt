//! The loop of every play: it reads a line, answers it, and writes the answer.

ghost use Rattle.std.specs.Prelude.{◌≡◌, ◌↔◌, ◌+◌, ◌≤◌, ◌<◌, ◌^◌, ℕ, List, [], true, false, Err};
ghost use Rattle.std.specs.Prelude.{IfOk, IfErr, OnOk, OnErr, string_bytes};
ghost use Rattle.board_text.specs.Streams.{AppendsAll, AppendsPrefix, bytes_of};
ghost use Rattle.player.specs.Transcript.{Game, Standing, Going, AreResponses, stopped_line};
ghost use Rattle.player.specs.Inside.Transcript.{standing_of};
ghost use Rattle.player.specs.Prompts.{AreChoices, HasValueIn, IsToldIn, greeting_of, left_words};
ghost use Rattle.player.specs.Prompts.{start_of, told_from};
ghost use Rattle.console.specs.Showing.{HasNoControl, IsMore, shown};
ghost use Rattle.player.specs.Play.{HasEnded, BreaksOff, TellsBothStreams};
ghost use Rattle.player.specs.Inside.Steps.{IsResponseToMeaning, AddsText, Writes, FailsToWrite};
ghost use Rattle.player.specs.declared.end.PlayEnd.TheVariants.{Stopped};
ghost use Rattle.player.specs.declared.end.PlayFault.TheVariants.{Write};

use crate::end::{PlayEnd, PlayFault};
use crate::line_meaning::LineMeaning;
use crate::lines::Lines;
use crate::prompts::{greet, prompt, tell_blank, tell_last};
use crate::writing::write_stopped;
use board_text::{Failed, Sink, Source, write_all};
use positions::Value;
use std::alloc::AllocError;

/// The largest number of lines that a play reads.
pub(crate) const MOST_LINES: u32 = 1_000_000;

/// A play that goes on, which answers the lines of a person.
pub(crate) trait Play {
    // Who the person is, and the board.
    ghost game: { Self → Game };

    // The configuration.
    ghost at: { Self → List ℕ };

    // The number of answered requests.
    ghost requests: { Self → ℕ };

    /// Appends the reply to `meaning`; returns the end if the play is over.
    fn reply(
        &mut self,
        meaning: LineMeaning,
        text: &mut String,
    ) -> Result<Option<PlayEnd>, AllocError>
        requires { requests self.old + 1 < 2 ^ 32 }
        ensures game { game self.new ≡ game self.old }
        ensures count { requests self.new ≤ requests self.old + 1 }
        ensures said { IfOk result (λ end. AddsText (string_bytes text.old) (string_bytes text.new)
            (λ said. IsResponseToMeaning (game self.old)
            (Going (at self.old) (requests self.old)) meaning said
            (standing_of end (at self.new) (requests self.new)))) };

    /// The number of answered requests.
    fn requests(&self) -> u32
        ensures { result ≡ requests self.now };

    /// The value of the start.
    fn start_value(&self) -> Value
        ensures { HasValueIn (game self.now) (start_of (game self.now)) result };

    /// The words that greet the person.
    fn greeting(&self) -> &'static str
        ensures { result.now ≡ greeting_of (game self.now) };

    /// Writes the words for how many more requests are answered.
    fn tell_left<E: Sink>(&self, errors: &mut E)
        ensures { (value : Value) × HasValueIn (game self.now) (at self.now) value
            × IsMore E.contents E.has_failed errors.old errors.new
            (left_words (game self.now) value)
            × HasNoControl (left_words (game self.now) value) };

    /// Writes the words for what can be typed now.
    fn tell_choices<E: Sink>(&self, errors: &mut E)
        ensures { (words : List ℕ) × AreChoices (game self.now) (at self.now) words
            × IsMore E.contents E.has_failed errors.old errors.new (shown words) };
}

/// Plays on with the lines of `reader` until the play or the input ends. Each answer is written
/// before the next line is read.
///
/// If `shows` says that there is a person to see it, a greeting is written to `errors` at first,
/// before each line how many more requests are answered and what can be typed, after a line with a
/// blank that it has one, and at the end of the play whether it could have gone on, or have ended
/// before.
pub(crate) fn play_on<P: Play, R: Source, W: Sink, E: Sink>(
    play: &mut P,
    text: &mut String,
    reader: &mut R,
    writer: &mut W,
    shows: bool,
    errors: &mut E,
) -> Result<PlayEnd, PlayFault>
    requires fresh { P.requests play.old ≡ 0 }
    requires empty { string_bytes text.old ≡ [] }
    requires reader_ready { R.has_failed reader.old ≡ false }
    requires reader_unended { R.has_ended reader.old ≡ false }
    requires writer_ready { W.has_failed writer.old ≡ false }
    ensures ok { IfOk result (HasEnded (AreResponses (P.game play.old) (Going (P.at play.old) 0))
        (bytes_of R.remaining reader.old reader.new)
        (bytes_of W.contents writer.old writer.new)) }
    ensures fault { IfErr result (BreaksOff
        (AreResponses (P.game play.old) (Going (P.at play.old) 0))
        (bytes_of R.remaining reader.old reader.new)
        (bytes_of W.contents writer.old writer.new)) }
    ensures streams { TellsBothStreams result (R.has_failed reader.new) (W.has_failed writer.new) }
    ensures told { (told : List ℕ)
        × IsToldIn (told_from shows (P.game play.old) (Going (P.at play.old) 0))
        (bytes_of R.remaining reader.old reader.new)
        (bytes_of W.contents writer.old writer.new) result told
        × IsMore E.contents E.has_failed errors.old errors.new told }
{
    greet(play, shows, errors);
    prompt(play, shows, errors);
    let mut lines = Lines::new();
    for _ in 0..MOST_LINES {
        let Some(meaning) = lines.next(reader)? else {
            let end = end_play(play, text, writer)?;
            tell_last(play.start_value(), end, shows, errors);
            return Ok(end);
        };
        let end = answer_line(play, meaning, text, writer)?;
        tell_blank(meaning, shows, errors);
        if let Some(end) = end {
            tell_last(play.start_value(), end, shows, errors);
            return Ok(end);
        }
        prompt(play, shows, errors);
    }
    Err(PlayFault::Limit)
}

/// Answers `meaning`, and writes the answer; returns the end if the play is over.
fn answer_line<P: Play, W: Sink>(
    play: &mut P,
    meaning: LineMeaning,
    text: &mut String,
    writer: &mut W,
) -> Result<Option<PlayEnd>, PlayFault>
    requires few { P.requests play.old + 1 < 2 ^ 32 }
    requires empty { string_bytes text.old ≡ [] }
    requires ready { W.has_failed writer.old ≡ false }
    ensures game { P.game play.new ≡ P.game play.old }
    ensures count { P.requests play.new ≤ P.requests play.old + 1 }
    ensures empty { OnOk result (string_bytes text.new ≡ []) }
    ensures unfailed { OnOk result (W.has_failed writer.new ≡ false) }
    ensures written { IfOk result (λ end. Writes (bytes_of W.contents writer.old writer.new)
        (λ said. IsResponseToMeaning (P.game play.old)
        (Going (P.at play.old) (P.requests play.old)) meaning said
        (standing_of end (P.at play.new) (P.requests play.new)))) }
    ensures fault { IfErr result (FailsToWrite (bytes_of W.contents writer.old writer.new)
        (λ said. (to : Standing) × IsResponseToMeaning (P.game play.old)
        (Going (P.at play.old) (P.requests play.old)) meaning said to)) }
    ensures write { (W.has_failed writer.new ≡ true) ↔ (result ≡ Err Write) }
{
    let Ok(end) = play.reply(meaning, text) else {
        return Err(PlayFault::Memory);
    };
    flush(text, writer)?;
    Ok(end)
}

/// Ends the play at the end of the input.
fn end_play<P: Play, W: Sink>(
    play: &P,
    text: &mut String,
    writer: &mut W,
) -> Result<PlayEnd, PlayFault>
    requires empty { string_bytes text.old ≡ [] }
    requires ready { W.has_failed writer.old ≡ false }
    ensures end { IfOk result (λ end. end ≡ Stopped (P.requests play.now)) }
    ensures written { OnOk result (AppendsAll (bytes_of W.contents writer.old writer.new)
        (stopped_line (P.requests play.now))) }
    ensures fault { IfErr result (FailsToWrite (bytes_of W.contents writer.old writer.new)
        (λ said. said ≡ stopped_line (P.requests play.now))) }
    ensures write { (W.has_failed writer.new ≡ true) ↔ (result ≡ Err Write) }
{
    let requests = play.requests();
    write_stopped(text, requests)?;
    flush(text, writer)?;
    Ok(PlayEnd::Stopped { requests })
}

/// Writes `text` to `writer`, and empties it.
pub(crate) fn flush<W: Sink>(text: &mut String, writer: &mut W) -> Result<(), PlayFault>
    requires { W.has_failed writer.old ≡ false }
    ensures written { OnOk result (AppendsAll (bytes_of W.contents writer.old writer.new)
        (string_bytes text.old)) }
    ensures unfailed { OnOk result (W.has_failed writer.new ≡ false) }
    ensures empty { OnOk result (string_bytes text.new ≡ []) }
    ensures front { OnErr result (AppendsPrefix (bytes_of W.contents writer.old writer.new)
        (string_bytes text.old)) }
    ensures fault { IfErr result (λ fault. (fault ≡ Write) × (W.has_failed writer.new ≡ true)) }
{
    match write_all(writer, text.as_bytes()) {
        Ok(()) => {
            text.clear();
            Ok(())
        }
        Err(Failed) => Err(PlayFault::Write),
    }
}
