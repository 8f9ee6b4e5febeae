//! Plays in which the person is the labeller.

ghost use Rattle.std.specs.Prelude.{◌≡◌, ◌↔◌, ◌+◌, ◌<◌, ◌≤◌, ◌^◌, ◌++◌, ℕ, List, false, None, IfOk};
ghost use Rattle.std.specs.Prelude.{IfErr, string_bytes, true};
ghost use Rattle.std.specs.Fmt.{decimal};
ghost use Rattle.board_text.specs.Domination.{has_bit};
ghost use Rattle.board_text.specs.PlainBoard.{IsBoard, IsConfiguration};
ghost use Rattle.board_text.specs.Streams.{bytes_of};
ghost use Rattle.positions.specs.Value.{HasValue};
ghost use Rattle.positions.specs.declared.value.Value.TheVariants.{Finite};
ghost use Rattle.strategies.specs.Best.{IsBestRequest};
ghost use Rattle.player.specs.Laws.{KeepsToValue};
ghost use Rattle.player.specs.Play.{HasEnded, BreaksOff, TellsBothStreams};
ghost use Rattle.player.specs.Inside.PlayState.{HasAsked, IsRequestAt, IsStandingAfter, IsLegalAt};
ghost use Rattle.player.specs.Inside.Prompts.{AreLegalAt};
ghost use Rattle.player.specs.Prompts.{listed_labels};
ghost use Rattle.console.specs.Showing.{HasNoControl, IsMore};
ghost use Rattle.player.specs.Transcript.{Standing, IsPlayed, BeginsPlay, PersonAnswers};
ghost use Rattle.player.specs.Transcript.{AsksAfterLine, no_answer_line};
ghost use Rattle.player.specs.Inside.Transcript.{standing_of};
ghost use Rattle.player.specs.Inside.Steps.{AddsText};

use crate::end::{PlayEnd, PlayFault};
use crate::game::{Game, Opened, play};
use crate::line_meaning::LineMeaning;
use crate::prompts::{LABELS_GREETING, tell_count, tell_label, tell_most};
use crate::turns::Play;
use crate::writing::{end_stopped, write_at, write_opening, write_stuck};
use board_text::{Board, MAX_LABELS, Memory, Sink, Source, Through};
use classes::Places;
use console::{write_digits, write_shown};
use gap_values::ValueTable;
use positions::{LabelSet, Value, legal_labels};
use solver::Values;
use std::alloc::{AllocError, Global};
use std::fmt::Write;
use std::marker::Model;
use strategies::GapMoves;

/// Plays with a person who is the labeller: best requests are made,
/// and each line answers one with a label.
///
/// The `values` are those of `board`. The reader and the writer must not have failed before, nor
/// the reader have reported its end.
/// The play ends when no label is legal for the pebble that is asked for, with a line `quit`, or
/// at the end of the input. If the value is forever it ends before a line is read.
/// A line of any other kind is answered, and the same request stands.
/// Each answer is written before the next line is read.
pub fn play_labeller_side<R: Source, W: Sink>(
    alloc: Global,
    board: &Board,
    values: &Values,
    reader: &mut R,
    writer: &mut W,
) -> Result<PlayEnd, PlayFault>
    requires same_board { values.now ≡ board.now }
    requires reader_ready { R.has_failed reader.old ≡ false }
    requires reader_unended { R.has_ended reader.old ≡ false }
    requires writer_ready { W.has_failed writer.old ≡ false }
    ensures ok { IfOk result (HasEnded (IsPlayed (PersonAnswers board.now))
        (bytes_of R.remaining reader.old reader.new)
        (bytes_of W.contents writer.old writer.new)) }
    ensures fault { IfErr result (BreaksOff (IsPlayed (PersonAnswers board.now))
        (bytes_of R.remaining reader.old reader.new)
        (bytes_of W.contents writer.old writer.new)) }
    ensures value { IfOk result (KeepsToValue (PersonAnswers board.now)) }
    ensures streams { TellsBothStreams result (R.has_failed reader.new) (W.has_failed writer.new) }
{
    let moves = GapMoves::new(board, values);
    let mut nobody = Through::new(Vec::new(alloc));
    let game = AsLabeller { moves: &moves };
    play(alloc, &game, reader, writer, false, &mut nobody)
}

/// A game in which the person is the labeller: best requests are made, and each line answers one
/// with a label.
#[derive(Clone, Copy)]
pub struct AsLabeller<'a, V: ValueTable> {
    /// The best moves on the board.
    pub moves: &'a GapMoves<'a, V>,
}

impl<'a, V: ValueTable> Game for AsLabeller<'a, V> {
    type Playing = LabellerSide<'a, V>;

    ghost game = { λ g. PersonAnswers g.moves.now };

    fn open(
        &self,
        _alloc: Global,
        text: &mut String,
    ) -> Result<Opened<LabellerSide<'a, V>>, Memory> {
        match open(text, self.moves)? {
            Next::Asks(pebble) => Ok(Opened::Goes(LabellerSide::new(self.moves, pebble))),
            Next::Ends(end) => Ok(Opened::Ends(end)),
        }
    }

    fn start_value(&self) -> Value {
        self.moves.value(self.moves.board().start())
    }
}

/// The next turn of a play.
#[derive(Clone, Copy, Debug, PartialEq, Eq)]
enum Next {
    /// A pebble is asked for.
    Asks(u8),
    /// The play is over.
    Ends(PlayEnd),
}

/// A best request, at a configuration with a finite value.
#[derive(Clone, Copy, Debug, PartialEq, Eq)]
struct Request {
    pebble: u8,
    /// Whether no label is legal.
    is_stuck: bool,
}

/// Appends the value of the start and its places, and the first request or that there is no
/// strategy; returns the next turn.
fn open<V: ValueTable>(text: &mut String, moves: &GapMoves<'_, V>) -> Result<Next, AllocError>
    ensures is_board { IsBoard moves.now }
    ensures said { IfOk result (λ next. AddsText (string_bytes text.old) (string_bytes text.new)
        (λ said. (to : Standing) × BeginsPlay (PersonAnswers moves.now) said to
        × IsStandingAfter moves.now moves.now.start 0 next to)) }
{
    let board = moves.board();
    let value = moves.value(board.start());
    write_opening(text, board, value)?;
    match value {
        Value::Finite(_) => write_request(text, request_at(moves, board.start()), 0),
        Value::Forever => {
            text.push_str("no strategy\n")?;
            Ok(Next::Ends(PlayEnd::NoStrategy))
        }
    }
}

/// The best request at the configuration `held`, whose value is finite.
fn request_at<V: ValueTable>(moves: &GapMoves<'_, V>, held: &[u16]) -> Request
    requires held { IsConfiguration moves.now held.now }
    requires finite { (number : ℕ) × HasValue moves.now held.now (Finite number) }
    ensures { IsRequestAt moves.now held.now result }
{
    let (_, request) = moves.request(held);
    let pebble = request.unwrap();
    let is_stuck = moves.answer(held, pebble).is_none();
    Request { pebble, is_stuck }
}

/// Appends `request`, and that the play is over if no label is legal; returns the next turn.
fn write_request(text: &mut String, request: Request, requests: u32) -> Result<Next, AllocError>
    ensures { IfOk result (λ next. AddsText (string_bytes text.old) (string_bytes text.new)
        (HasAsked request requests next)) }
{
    write!(text, "ask {}\n", request.pebble)?;
    if request.is_stuck {
        write_stuck(text, request.pebble, requests)?;
        return Ok(Next::Ends(PlayEnd::Stuck { requests }));
    }
    Ok(Next::Asks(request.pebble))
}

/// A play in which the person is the labeller.
#[derive(Drop)]
pub struct LabellerSide<'a, V: ValueTable> {
    moves: &'a GapMoves<'a, V>,
    configuration: Places,
    /// The pebble that is asked for, which is the best request.
    asked: u8,
    /// The number of answered requests.
    requests: u32,
}

impl<'a, V: ValueTable> Model for LabellerSide<'a, V> {
    ghost use Rattle.player.specs.Inside.PlayState.{PlayState, IsPlayState};

    ghost Value = { PlayState };

    ghost view = { λ s. record {
      board = s.moves.now;
      at = s.configuration;
      requests = s.requests;
    } };

    ghost invariant = { λ s. IsPlayState s.moves.now s.configuration s.asked };
}

impl<'a, V: ValueTable> LabellerSide<'a, V> {
    /// A play at the start, in which no request was answered yet and pebble `asked` is asked for.
    fn new(moves: &'a GapMoves<'a, V>, asked: u8) -> LabellerSide<'a, V>
        requires { IsBestRequest moves.now moves.now.start asked }
        ensures { result ≡ record {
          board = moves.now;
          at = moves.now.start;
          requests = 0;
        } }
    {
        let configuration = Places::of(moves.board().start());
        LabellerSide {
            moves,
            configuration,
            asked,
            requests: 0,
        }
    }

    /// The labels that are legal for the pebble that is asked for.
    fn legal(&self) -> LabelSet
        ensures { (label : ℕ) → label < MAX_LABELS
            → (has_bit result label ≡ true) ↔ IsLegalAt self.now label }
    {
        legal_labels(
            self.moves.board(),
            self.configuration.as_slice(),
            self.asked,
        )
    }

    /// Writes the labels that are legal for the pebble that is asked for, each with a space before
    /// it; of more than `MOST_LISTED` the first ones, and how many they are.
    fn tell_legal_labels<E: Sink>(&self, errors: &mut E)
        ensures { (labels : List ℕ) × AreLegalAt self.now labels
            × IsMore E.contents E.has_failed errors.old errors.new (listed_labels labels)
            × HasNoControl (listed_labels labels) }
    {
        let legal = self.legal();
        let mut count = 0;
        for label in 0..self.moves.board().labels() {
            if legal.contains(label) {
                tell_label(errors, count, label);
                count += 1;
            }
        }
        tell_count(errors, count);
    }

    /// Puts the pebble that is asked for on the legal `label`, and makes the next request.
    fn move_to_label(
        &mut self,
        label: u16,
        text: &mut String,
    ) -> Result<Option<PlayEnd>, AllocError>
        requires legal { IsLegalAt self.old label }
        requires few { self.old.requests + 1 < 2 ^ 32 }
        ensures board { self.new.board ≡ self.old.board }
        ensures count { self.new.requests ≤ self.old.requests + 1 }
        ensures said { IfOk result (λ end. AddsText (string_bytes text.old) (string_bytes text.new)
            (λ said. (line : List ℕ) → line ≡ decimal label
            → AsksAfterLine self.old.board self.old.at self.old.requests line said
            (standing_of end self.new.at self.new.requests))) }
    {
        let board = self.moves.board();
        let configuration = self.configuration.with(self.asked, label);
        let request = request_at(self.moves, configuration.as_slice());
        let requests = self.requests + 1;
        write_at(text, board, configuration.as_slice())?;
        match write_request(text, request, requests)? {
            Next::Asks(pebble) => {
                self.configuration = configuration;
                self.asked = pebble;
                self.requests = requests;
                Ok(None)
            }
            Next::Ends(end) => Ok(Some(end)),
        }
    }
}

impl<V: ValueTable> Play for LabellerSide<'_, V> {
    ghost game = { λ s. PersonAnswers s.board };

    ghost at = { λ s. s.at };

    ghost requests = { λ s. s.requests };

    fn reply(
        &mut self,
        meaning: LineMeaning,
        text: &mut String,
    ) -> Result<Option<PlayEnd>, AllocError> {
        let labels = u32::from(self.moves.board().labels());
        match meaning {
            LineMeaning::Number(number) => {
                if number < labels && self.legal().contains(number as u16) {
                    self.move_to_label(number as u16, text)
                } else {
                    say_no_answer(text)
                }
            }
            LineMeaning::Quit => end_stopped(text, self.requests),
            LineMeaning::Other { .. } => say_no_answer(text),
        }
    }

    fn requests(&self) -> u32 {
        self.requests
    }

    fn start_value(&self) -> Value {
        self.moves.value(self.moves.board().start())
    }

    fn greeting(&self) -> &'static str {
        LABELS_GREETING
    }

    fn tell_left<E: Sink>(&self, errors: &mut E) {
        tell_most(errors, self.moves.value(self.configuration.as_slice()));
    }

    fn tell_choices<E: Sink>(&self, errors: &mut E) {
        write_shown(errors, "labels that pebble ");
        write_digits(errors, u64::from(self.asked));
        write_shown(errors, " can take:");
        self.tell_legal_labels(errors);
        write_shown(errors, "; type one, or quit");
    }
}

/// Appends the reply to a line that is no answer; the play goes on.
fn say_no_answer(text: &mut String) -> Result<Option<PlayEnd>, AllocError>
    ensures { IfOk result (λ end. (end ≡ None)
        × (string_bytes text.new ≡ string_bytes text.old ++ no_answer_line)) }
{
    text.push_str("not an answer\n")?;
    Ok(None)
}
