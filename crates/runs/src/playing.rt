//! Playing with a person, from the bytes of the board and of the lines to the bytes written.

ghost use Rattle.std.specs.Prelude.{◌≡◌, ◌⊎◌, ℕ, List, Result, true, false, IfOk, IfErr};
ghost use Rattle.player.specs.Laws.{KeepsToValue};
ghost use Rattle.player.specs.Play.{HasEnded, BreaksOff, TellsBothStreams};
ghost use Rattle.board_text.specs.Ranges.{InRange};
ghost use Rattle.player.specs.Prompts.{ArePrompts};
ghost use Rattle.console.specs.Showing.{IsMore};
ghost use Rattle.player.specs.Transcript.{IsPlayed, PersonClimbs};
ghost use Rattle.player.specs.declared.end.PlayEnd.{PlayEnd};
ghost use Rattle.player.specs.declared.end.PlayFault.{PlayFault};
ghost use Rattle.runs.specs.BoardRun.{readers_of};
ghost use Rattle.runs.specs.Notices.{IsToldInRun};
ghost use Rattle.runs.specs.PlayRun.{IsBrokenOff, IsOver, IsToldUpTo, PlayFails};
ghost use Rattle.runs.specs.PlayRun.{PlayFailsUpTo, RanPlay, RanPlayUpTo, game_played};
ghost use Rattle.runs.specs.PlayRun.{play_streams, prompts_after, run_of_play};
ghost use Rattle.runs.specs.Run.{TellsFailures, bytes_of, stream_of};

use crate::fault::RunFault;
use crate::given_symmetries::{MAX_SYMMETRIES_BYTES, symmetries_of};
use crate::notices::tell_size;
use crate::reading::{read_board, read_board_up_to, read_text};
use board_text::{Sink, Source, Through};
use command_line::BoardLimit;
use gap_values::ValueTable;
use nested_cycles::MAX_LEVELS;
use player::{AsAdversary, AsClimber, AsLabeller, PlayEnd, PlayFault, play};
use positions::Side;
use std::alloc::Global;
use std::thread::Threads;
use strategies::GapMoves;

/// Reads a board, finds its values and plays on it with a person,
/// who is this `side` and writes lines.
///
/// The values are found on this thread. No reader or writer must have failed
/// before, nor a reader have reported its end.
/// No line is read, and nothing is written, before the values are found. Each answer is written
/// before the next line is read.
pub fn run_play<B: Source, L: Source, W: Sink>(
    alloc: Global,
    side: Side,
    board: &mut B,
    lines: &mut L,
    writer: &mut W,
) -> Result<PlayEnd, RunFault>
    requires board_ready { B.has_failed board.old ≡ false }
    requires board_unended { B.has_ended board.old ≡ false }
    requires lines_ready { L.has_failed lines.old ≡ false }
    requires lines_unended { L.has_ended lines.old ≡ false }
    requires writer_ready { W.has_failed writer.old ≡ false }
    ensures ok { IfOk result (RanPlay BoardLimit.Small side
        (bytes_of B.remaining board.old board.new)
        (play_streams L.remaining lines.old lines.new W.contents writer.old writer.new)) }
    ensures fault { IfErr result (PlayFails BoardLimit.Small side
        (bytes_of B.remaining board.old board.new)
        (play_streams L.remaining lines.old lines.new W.contents writer.old writer.new)) }
    ensures streams { TellsFailures result
        ((B.has_failed board.new ≡ true) ⊎ (L.has_failed lines.new ≡ true))
        (stream_of W.contents W.has_failed writer.old writer.new) }
{
    let mut nobody = Through::new(Vec::new(alloc));
    let playing = Playing {
        side,
        limit: BoardLimit::Small,
        shows_size: false,
        prompts: false,
    };
    playing.run(alloc, board, lines, writer, &mut nobody)
}

/// How a play is run.
#[derive(Clone, Copy, Debug, PartialEq, Eq)]
pub struct Playing {
    /// The person's side.
    pub side: Side,
    /// How large the board may be.
    pub limit: BoardLimit,
    /// Whether the person is told that a large board is solved, before it is.
    pub shows_size: bool,
    /// Whether the person is told a greeting before the first line is read, the value and the
    /// choices before each line, after a line with a blank that it has one, and at the end that the
    /// play could have gone on, or have ended before.
    pub prompts: bool,
}

impl Playing {
    /// Reads a board, finds its values and plays on it with a person, as `run_play` does, and tells
    /// the person on `errors` what is to be told.
    ///
    /// If `errors` fails, or has failed before, nothing more is written there, and the play goes
    /// on.
    pub fn run<B: Source, L: Source, W: Sink, E: Sink>(
        self,
        alloc: Global,
        board: &mut B,
        lines: &mut L,
        writer: &mut W,
        errors: &mut E,
    ) -> Result<PlayEnd, RunFault>
        requires board_ready { B.has_failed board.old ≡ false }
        requires board_unended { B.has_ended board.old ≡ false }
        requires lines_ready { L.has_failed lines.old ≡ false }
        requires lines_unended { L.has_ended lines.old ≡ false }
        requires writer_ready { W.has_failed writer.old ≡ false }
        ensures ok { IfOk result (RanPlay self.limit self.side
            (bytes_of B.remaining board.old board.new)
            (play_streams L.remaining lines.old lines.new W.contents writer.old writer.new)) }
        ensures fault { IfErr result (PlayFails self.limit self.side
            (bytes_of B.remaining board.old board.new)
            (play_streams L.remaining lines.old lines.new W.contents writer.old writer.new)) }
        ensures streams { TellsFailures result
            ((B.has_failed board.new ≡ true) ⊎ (L.has_failed lines.new ≡ true))
            (stream_of W.contents W.has_failed writer.old writer.new) }
        ensures prompts { (told : List ℕ) × IsToldInRun self.limit
            (bytes_of B.remaining board.old board.new) self.shows_size
            (prompts_after self (play_streams L.remaining lines.old lines.new
            W.contents writer.old writer.new) result) result told
            × IsMore E.contents E.has_failed errors.old errors.new told }
    {
        let board = read_board(alloc, self.limit, board)?;
        tell_size(&board, self.shows_size, errors);
        let values = self.values(alloc, &board, errors)?;
        let moves = GapMoves::new(&board, &values);
        Ok(self.play(alloc, &moves, lines, writer, errors)?)
    }

    /// Reads a board and then symmetries of its domain, finds its values by orbits and plays on it
    /// with a person, as `run` does. A board that may be large may have any number of gaps, and at
    /// most `MAX_ORBITS` orbits. The person is told the prompts alone.
    ///
    /// The board is read and parsed before anything of the symmetries is read, and these are
    /// checked before anything is solved.
    pub fn run_up_to_symmetries<B: Source, S: Source, L: Source, W: Sink, E: Sink>(
        self,
        rt: &(impl Threads + Sync),
        alloc: Global,
        board: &mut B,
        symmetries: &mut S,
        lines: &mut L,
        writer: &mut W,
        errors: &mut E,
    ) -> Result<PlayEnd, RunFault>
        requires board_ready { B.has_failed board.old ≡ false }
        requires board_unended { B.has_ended board.old ≡ false }
        requires symmetries_ready { S.has_failed symmetries.old ≡ false }
        requires symmetries_unended { S.has_ended symmetries.old ≡ false }
        requires lines_ready { L.has_failed lines.old ≡ false }
        requires lines_unended { L.has_ended lines.old ≡ false }
        requires writer_ready { W.has_failed writer.old ≡ false }
        ensures ok { IfOk result (RanPlayUpTo self.limit self.side
            (readers_of B.remaining board.old board.new S.remaining symmetries.old symmetries.new)
            (play_streams L.remaining lines.old lines.new W.contents writer.old writer.new)) }
        ensures fault { IfErr result (PlayFailsUpTo self.limit self.side
            (readers_of B.remaining board.old board.new S.remaining symmetries.old symmetries.new)
            (play_streams L.remaining lines.old lines.new W.contents writer.old writer.new)) }
        ensures streams { TellsFailures result ((B.has_failed board.new ≡ true)
            ⊎ (S.has_failed symmetries.new ≡ true) ⊎ (L.has_failed lines.new ≡ true))
            (stream_of W.contents W.has_failed writer.old writer.new) }
        ensures prompts { (told : List ℕ) × IsToldUpTo self
            (readers_of B.remaining board.old board.new S.remaining symmetries.old symmetries.new)
            (play_streams L.remaining lines.old lines.new W.contents writer.old writer.new)
            result told
            × IsMore E.contents E.has_failed errors.old errors.new told }
    {
        let board = read_board_up_to(alloc, self.limit, board)?;
        let text = read_text(alloc, symmetries, MAX_SYMMETRIES_BYTES)?;
        let symmetries = symmetries_of(alloc, &board, text.as_slice())?;
        let values = symmetries.values(rt, alloc, &board, 1)?;
        let moves = GapMoves::new(&board, &values);
        Ok(self.play(alloc, &moves, lines, writer, errors)?)
    }

    /// Plays with the person on the board of `moves`.
    fn play<V: ValueTable, L: Source, W: Sink, E: Sink>(
        self,
        alloc: Global,
        moves: &GapMoves<'_, V>,
        lines: &mut L,
        writer: &mut W,
        errors: &mut E,
    ) -> Result<PlayEnd, PlayFault>
        requires lines_ready { L.has_failed lines.old ≡ false }
        requires lines_unended { L.has_ended lines.old ≡ false }
        requires writer_ready { W.has_failed writer.old ≡ false }
        ensures ok { IfOk result (HasEnded (IsPlayed (game_played self.side moves.now))
            (bytes_of L.remaining lines.old lines.new)
            (bytes_of W.contents writer.old writer.new)) }
        ensures fault { IfErr result (BreaksOff (IsPlayed (game_played self.side moves.now))
            (bytes_of L.remaining lines.old lines.new)
            (bytes_of W.contents writer.old writer.new)) }
        ensures value { IfOk result (KeepsToValue (game_played self.side moves.now)) }
        ensures streams { TellsBothStreams result (L.has_failed lines.new)
            (W.has_failed writer.new) }
        ensures prompts { (told : List ℕ) × ArePrompts self.prompts
            (game_played self.side moves.now) (bytes_of L.remaining lines.old lines.new)
            (bytes_of W.contents writer.old writer.new) result told
            × IsMore E.contents E.has_failed errors.old errors.new told }
    {
        match self.side {
            Side::Adversary => {
                play(
                    alloc,
                    &AsAdversary { moves },
                    lines,
                    writer,
                    self.prompts,
                    errors,
                )
            }
            Side::Labeller => play(
                alloc,
                &AsLabeller { moves },
                lines,
                writer,
                self.prompts,
                errors,
            ),
        }
    }
}

/// Plays on the nested board of a level, 1 to `MAX_LEVELS`, with a person, who asks by lines.
///
/// The reader and the writer must not have failed before.
/// Each answer is written before the next line is read. If `shows` says so, the person is told on
/// `errors`: a greeting, before each line that requests will be answered for ever and the pebbles
/// that can be asked for, after a line with a space or a tab that it has one, and at the end that
/// the play could have gone on. If `errors` fails, or has failed before, nothing more is written
/// there, and the play goes on.
pub fn run_climb<L: Source, W: Sink, E: Sink>(
    alloc: Global,
    levels: u8,
    lines: &mut L,
    writer: &mut W,
    shows: bool,
    errors: &mut E,
) -> Result<PlayEnd, RunFault>
    requires levels { InRange 1 MAX_LEVELS levels }
    requires lines_ready { L.has_failed lines.old ≡ false }
    requires lines_unended { L.has_ended lines.old ≡ false }
    requires writer_ready { W.has_failed writer.old ≡ false }
    ensures ok { IfOk result (IsOver (PersonClimbs levels)
        (bytes_of L.remaining lines.old lines.new)
        (bytes_of W.contents writer.old writer.new)) }
    ensures fault { IfErr result (IsBrokenOff (PersonClimbs levels)
        (bytes_of L.remaining lines.old lines.new)
        (bytes_of W.contents writer.old writer.new)) }
    ensures streams { TellsFailures result (L.has_failed lines.new ≡ true)
        (stream_of W.contents W.has_failed writer.old writer.new) }
    ensures prompts { (told : List ℕ) × (played : Result PlayEnd PlayFault)
        × (result ≡ run_of_play played)
        × ArePrompts shows (PersonClimbs levels) (bytes_of L.remaining lines.old lines.new)
        (bytes_of W.contents writer.old writer.new) played told
        × IsMore E.contents E.has_failed errors.old errors.new told }
{
    let game = AsClimber::of(levels);
    Ok(play(alloc, &game, lines, writer, shows, errors)?)
}
