//! Plays with a person, who writes to standard input.

ghost use Rattle.std.specs.Prelude.{◌≡◌, ◌⊎◌, ℕ, List, true};
ghost use Rattle.runs.specs.declared.fault.RunFault.TheVariants.{Read};
ghost use Rattle.serving.specs.declared.outcome.Outcome.TheVariants.{Broken};
ghost use Rattle.board_text.specs.Ranges.{InRange};
ghost use Rattle.console.specs.Showing.{IsMore};
ghost use Rattle.player.specs.declared.end.PlayEnd.{PlayEnd as EndData};
ghost use Rattle.runs.specs.Notices.{IsToldInRun};
ghost use Rattle.runs.specs.PlayRun.{IsToldUpTo, play_streams, prompts_after};
ghost use Rattle.runs.specs.Run.{bytes_of, stream_of};
ghost use Rattle.serving.specs.Consoles.{IsReady};
ghost use Rattle.serving.specs.Folders.{CanFail};
ghost use Rattle.serving.specs.Jobs.{Climbs, Plays, PlaysUpTo, TellsReads, TellsWrites};
ghost use Rattle.serving.specs.Telling.{IsToldInClimb, OpensAndTells, OpensBothAndTells};
ghost use Rattle.serving.specs.Telling.{types_and_sees};

use crate::ended::Ended;
use crate::files::{Files, INPUT_PATH};
use crate::folder::Folder;
use crate::outcome::Outcome;
use board_text::{Sink, Source};
use console::Console;
use explanations::{Inputs, Origin};
use nested_cycles::MAX_LEVELS;
use runs::{Playing, run_climb};
use std::alloc::Global;
use std::thread::Threads;

/// Plays on the board at a path with a person, who writes to standard input.
pub(crate) fn play<'a, F: Folder, I: Source, O: Sink, E: Sink>(
    alloc: Global,
    playing: Playing,
    files: &Files<'_, F>,
    board: &'a str,
    console: &mut Console<I, O, E>,
) -> Ended<'a>
    requires ready { IsReady I.has_failed I.has_ended O.has_failed console.old }
    ensures done { Plays playing.side playing.limit (F.at files.now.folder.now board.now)
        (play_streams I.remaining console.old.input console.new.input
        O.contents console.old.output console.new.output) result.outcome }
    ensures writes { TellsWrites
        (stream_of O.contents O.has_failed console.old.output console.new.output) result.outcome }
    ensures reads { I.has_failed console.new.input ≡ true → result.outcome ≡ Broken Read }
    ensures unread { result.outcome ≡ Broken Read
        → CanFail (F.at files.now.folder.now board.now)
        ⊎ (I.has_failed console.new.input ≡ true) }
    ensures told { (told : List ℕ) × OpensAndTells {Answer = EndData}
        (F.at files.now.folder.now board.now)
        (λ read ended. IsToldInRun playing.limit read playing.shows_size (prompts_after playing
        (play_streams I.remaining console.old.input console.new.input
        O.contents console.old.output console.new.output) ended) ended) result.outcome told
        × IsMore E.contents E.has_failed console.old.errors console.new.errors told }
{
    let Ok(mut reader) = files.open(alloc, board) else {
        return Ended::unopened(files, board);
    };
    let ended = playing.run(
        alloc,
        &mut reader,
        &mut console.input,
        &mut console.output,
        &mut console.errors,
    );
    let trouble = files.trouble_of(board, &reader);
    let text = Origin::board(board, reader.text(), reader.count(), trouble);
    let lines = Origin::lines(files.trouble_of(INPUT_PATH, &console.input));
    Ended::of(
        Outcome::of_run(ended),
        &Inputs::alone(playing.limit, text, lines),
    )
}

/// Plays on the board at a path with a person, with values up to the symmetries at another. Both
/// are opened before one is read.
pub(crate) fn play_up_to<'a, F: Folder, I: Source, O: Sink, E: Sink>(
    rt: &(impl Threads + Sync),
    alloc: Global,
    playing: Playing,
    files: &Files<'_, F>,
    board: &'a str,
    symmetries: &'a str,
    console: &mut Console<I, O, E>,
) -> Ended<'a>
    requires ready { IsReady I.has_failed I.has_ended O.has_failed console.old }
    ensures done { PlaysUpTo playing.side playing.limit (F.at files.now.folder.now board.now)
        (F.at files.now.folder.now symmetries.now)
        (play_streams I.remaining console.old.input console.new.input
        O.contents console.old.output console.new.output) result.outcome }
    ensures writes { TellsWrites
        (stream_of O.contents O.has_failed console.old.output console.new.output) result.outcome }
    ensures reads { I.has_failed console.new.input ≡ true → result.outcome ≡ Broken Read }
    ensures unread { result.outcome ≡ Broken Read
        → (CanFail (F.at files.now.folder.now board.now)
        ⊎ CanFail (F.at files.now.folder.now symmetries.now))
        ⊎ (I.has_failed console.new.input ≡ true) }
    ensures told { (told : List ℕ) × OpensBothAndTells {Answer = EndData}
        (F.at files.now.folder.now board.now) (F.at files.now.folder.now symmetries.now)
        (λ read. IsToldUpTo playing read
        (play_streams I.remaining console.old.input console.new.input
        O.contents console.old.output console.new.output)) result.outcome told
        × IsMore E.contents E.has_failed console.old.errors console.new.errors told }
{
    let Ok(mut reader) = files.open(alloc, board) else {
        return Ended::unopened(files, board);
    };
    let Ok(mut other) = files.open(alloc, symmetries) else {
        return Ended::unopened(files, symmetries);
    };
    let ended = playing.run_up_to_symmetries(
        rt,
        alloc,
        &mut reader,
        &mut other,
        &mut console.input,
        &mut console.output,
        &mut console.errors,
    );
    let trouble = files.trouble_of(board, &reader);
    let first = Origin::board(board, reader.text(), reader.count(), trouble);
    let trouble = files.trouble_of(symmetries, &other);
    let second = Origin::symmetries(symmetries, other.text(), other.count(), trouble);
    let lines = Origin::lines(files.trouble_of(INPUT_PATH, &console.input));
    let inputs = Inputs::with_symmetries(playing.limit, first, second).and_lines(lines);
    Ended::of(Outcome::of_run(ended), &inputs)
}

/// Plays on the nested board of a level with a person, who asks by the lines of standard input.
pub(crate) fn climb<F: Folder, I: Source, O: Sink, E: Sink>(
    alloc: Global,
    levels: u8,
    files: &Files<'_, F>,
    console: &mut Console<I, O, E>,
) -> Ended<'static>
    requires levels { InRange 1 MAX_LEVELS levels }
    requires ready { IsReady I.has_failed I.has_ended O.has_failed console.old }
    ensures done { Climbs levels
        (stream_of I.remaining I.has_failed console.old.input console.new.input)
        (stream_of O.contents O.has_failed console.old.output console.new.output) result.outcome }
    ensures writes { TellsWrites
        (stream_of O.contents O.has_failed console.old.output console.new.output) result.outcome }
    ensures reads { TellsReads
        (stream_of I.remaining I.has_failed console.old.input console.new.input) result.outcome }
    ensures told { (told : List ℕ) × IsToldInClimb (types_and_sees console.old.terminals) levels
        (bytes_of I.remaining console.old.input console.new.input)
        (bytes_of O.contents console.old.output console.new.output) result.outcome told
        × IsMore E.contents E.has_failed console.old.errors console.new.errors told }
{
    let shows = console.terminals.are_both();
    let ended = run_climb(
        alloc,
        levels,
        &mut console.input,
        &mut console.output,
        shows,
        &mut console.errors,
    );
    let trouble = files.trouble_of(INPUT_PATH, &console.input);
    Ended::of(Outcome::of_run(ended), &Inputs::without_files(trouble))
}
