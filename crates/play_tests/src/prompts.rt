//! What a person at a terminal is told, each call once.

ghost use Rattle.std.specs.Prelude.{◌≡◌, false};

use crate::assertions::{assert_same, assert_text, board_of};
use crate::outcomes::{PLENTY, Writer, assert_prefix};
use board_text::Board;
use fakes::boards::{CHAIN_OF_THREE, CYCLE_WITH_A_WAY_IN, THREE_CYCLE};
use fakes::plays::{ANSWERS, ASKED, NO_STRATEGY, REPLIES, REQUESTS};
use fakes::{Drip, Failing};
use gap_values::GapValues;
use player::{AsAdversary, AsClimber, AsLabeller, PlayEnd, PlayFault, play};
use positions::Side;
use solved_boards::gap_values_of;
use std::alloc::Global;
use std::process::Abort;
use strategies::GapMoves;

/// What a person is told who asks on the chain by `REQUESTS`.
const ASKING: &[u8] =
    b"type the number of a pebble, of which the first is 0; `quit` or Ctrl-D ends the play\n\
    at least 2 more will be answered, however you ask; type a pebble, 0 to 1, or quit\n\
    at least 1 more will be answered, however you ask; type a pebble, 0 to 1, or quit\n\
    at least 1 more will be answered, however you ask; type a pebble, 0 to 1, or quit\n\
    at least 0 more will be answered, however you ask; type a pebble, 0 to 1, or quit\n";

/// What a person is told who answers on the chain by `ANSWERS`.
const ANSWERING: &[u8] =
    b"type a label for the pebble that is asked for; `quit` or Ctrl-D ends the play\n\
    at most 2 more can be answered; labels that pebble 0 can take: 1 2; type one, or quit\n\
    at most 2 more can be answered; labels that pebble 0 can take: 1 2; type one, or quit\n\
    at most 1 more can be answered; labels that pebble 1 can take: 2; type one, or quit\n";

/// What a person is told whose first answer on the chain takes the greatest label.
const TOO_HIGH: &[u8] =
    b"type a label for the pebble that is asked for; `quit` or Ctrl-D ends the play\n\
    at most 2 more can be answered; labels that pebble 0 can take: 1 2; type one, or quit\n\
    2 can be answered from the start: the play could have gone on\n";

/// What a person is told who stops on the cycle before a request.
const STOPPING: &[u8] =
    b"type the number of a pebble, of which the first is 0; `quit` or Ctrl-D ends the play\n\
    requests will be answered for ever, however you ask; type a pebble, 0 to 1, or quit\n\
    requests can be answered from the start for ever: the play could have gone on\n";

/// What a person is told who climbs, with one wrong line and no other.
const CLIMBING: &[u8] =
    b"type the number of a pebble, of which the first is 0; `quit` or Ctrl-D ends the play\n\
    requests will be answered for ever, however you ask; type a pebble, 0 to 1, or quit\n\
    requests will be answered for ever, however you ask; type a pebble, 0 to 1, or quit\n\
    requests can be answered from the start for ever: the play could have gone on\n";

/// What a person is told whose first line has a space, and whose requests let the labeller go into
/// the cycle, although better ones end the play after one.
const ASKING_BADLY: &[u8] =
    b"type the number of a pebble, of which the first is 0; `quit` or Ctrl-D ends the play\n\
    at least 1 more will be answered, however you ask; type a pebble, 0 to 1, or quit\n\
    a space or a tab is in the line: type the number alone\n\
    at least 1 more will be answered, however you ask; type a pebble, 0 to 1, or quit\n\
    requests will be answered for ever, however you ask; type a pebble, 0 to 1, or quit\n\
    requests will be answered for ever, however you ask; type a pebble, 0 to 1, or quit\n\
    better requests would have ended the play after 1 request\n";

/// A label, and 21 labels that dominate it.
const STAR: &str = "board 1\nlabels 22\npebbles 2\nstart 0 0\nbeats 1 0\nbeats 2 0\nbeats 3 0\n\
    beats 4 0\nbeats 5 0\nbeats 6 0\nbeats 7 0\nbeats 8 0\nbeats 9 0\nbeats 10 0\nbeats 11 0\n\
    beats 12 0\nbeats 13 0\nbeats 14 0\nbeats 15 0\nbeats 16 0\nbeats 17 0\nbeats 18 0\n\
    beats 19 0\nbeats 20 0\nbeats 21 0\nend\n";

/// What a person is told who may put the first pebble on 21 labels.
const MANY_LABELS: &[u8] =
    b"type a label for the pebble that is asked for; `quit` or Ctrl-D ends the play\n\
    at most 1 more can be answered; labels that pebble 0 can take: 1 2 3 4 5 6 7 8 9 10 11 12 13 \
    14 15 16 17 18 19 20, the first 20 of 21; type one, or quit\n\
    1 can be answered from the start: the play could have gone on\n";

/// A writer that takes what it is given.
fn writer() -> Writer
    ensures { result.has_failed ≡ false }
{
    Writer::new(PLENTY, Failing::Refuses)
}

/// What a play with prompts came to: its answer, the transcript and what the person was told.
#[derive(Drop)]
struct Prompted {
    answer: Result<PlayEnd, PlayFault>,
    output: Writer,
    errors: Writer,
}

/// Asserts the end of a play, what it writes and what the person is told. One that was refused
/// memory has written a prefix or told less, and is played once more.
fn assert_prompted<F: Fn() -> Prompted>(
    rt: &impl Abort,
    play: F,
    wanted: PlayEnd,
    written: &[u8],
    told: &[u8],
)
    requires { F.IsAlwaysCallable play }
{
    let mut prompted = play();
    if prompted.answer == Err(PlayFault::Memory) || prompted.errors.taken() != told {
        assert_prefix(rt, "the transcript", prompted.output.taken(), written);
        prompted = play();
    }
    assert_same(rt, "the end", prompted.answer, Ok(wanted));
    assert_text(rt, "the transcript", prompted.output.taken(), written);
    assert_text(rt, "the prompts", prompted.errors.taken(), told);
}

/// A play on a board of a person who is prompted.
fn board_play(
    alloc: Global,
    board: &Board,
    values: &GapValues,
    person: Side,
    lines: &[u8],
) -> Prompted
    requires { values.now ≡ board.now }
{
    let mut lines = Drip::new(lines, PLENTY);
    let (mut output, mut errors) = (writer(), writer());
    let (out, err) = (&mut output, &mut errors);
    let moves = GapMoves::new(board, values);
    let answer = match person {
        Side::Adversary => {
            play(
                alloc,
                &AsAdversary { moves: &moves },
                &mut lines,
                out,
                true,
                err,
            )
        }
        Side::Labeller => {
            play(
                alloc,
                &AsLabeller { moves: &moves },
                &mut lines,
                out,
                true,
                err,
            )
        }
    };
    Prompted {
        answer,
        output,
        errors,
    }
}

/// The lines of a person, the end of the play, the text that is written, and what the person is
/// told.
#[derive(Clone, Copy)]
struct Wanted {
    lines: &'static [u8],
    end: PlayEnd,
    written: &'static [u8],
    told: &'static [u8],
}

/// Asserts a play on the board of this text.
fn assert_board_play(rt: &impl Abort, alloc: Global, text: &str, person: Side, wanted: Wanted) {
    let board = board_of(rt, alloc, text);
    let values = gap_values_of(alloc, &board).expect(rt, "values");
    let play = || -> Prompted
        requires { values ≡ board }
    { board_play(alloc, &board, &values, person, wanted.lines) };
    assert_prompted(rt, play, wanted.end, wanted.written, wanted.told);
}

#[test]
fn a_person_asks(rt: HostRuntime) {
    let wanted = Wanted {
        lines: REQUESTS,
        end: PlayEnd::Stuck { requests: 2 },
        written: REPLIES,
        told: ASKING,
    };
    assert_board_play(&rt, rt.alloc(), CHAIN_OF_THREE, Side::Adversary, wanted);
}

#[test]
fn a_person_answers(rt: HostRuntime) {
    let wanted = Wanted {
        lines: ANSWERS,
        end: PlayEnd::Stuck { requests: 2 },
        written: ASKED,
        told: ANSWERING,
    };
    assert_board_play(&rt, rt.alloc(), CHAIN_OF_THREE, Side::Labeller, wanted);
}

#[test]
fn a_person_could_answer_more(rt: HostRuntime) {
    let wanted = Wanted {
        lines: b"2\n",
        end: PlayEnd::Stuck { requests: 1 },
        written: b"value 2\nat 0 0\nask 0\nat 2 0\nask 1\nno label for pebble 1 after 1 requests\n",
        told: TOO_HIGH,
    };
    assert_board_play(&rt, rt.alloc(), CHAIN_OF_THREE, Side::Labeller, wanted);
}

#[test]
fn a_person_could_ask_more(rt: HostRuntime) {
    let wanted = Wanted {
        lines: b"quit\n",
        end: PlayEnd::Stopped { requests: 0 },
        written: b"forever\nat 0 0\nstopped after 0 requests\n",
        told: STOPPING,
    };
    assert_board_play(&rt, rt.alloc(), THREE_CYCLE, Side::Adversary, wanted);
}

/// The value of the start is 1: a request of pebble 1, which takes 4, and one of pebble 0, for
/// which no label is legal. A request of pebble 0 brings both pebbles into the cycle.
#[test]
fn a_person_could_ask_better(rt: HostRuntime) {
    let wanted = Wanted {
        lines: b"0 \n0\n1\nquit\n",
        end: PlayEnd::Stopped { requests: 2 },
        written: b"value 1\nat 3 0\nnot a request\npebble 0 takes 1\nat 1 0\npebble 1 takes 2\n\
            at 1 2\nstopped after 2 requests\n",
        told: ASKING_BADLY,
    };
    assert_board_play(
        &rt,
        rt.alloc(),
        CYCLE_WITH_A_WAY_IN,
        Side::Adversary,
        wanted,
    );
}

#[test]
fn a_person_has_many_labels(rt: HostRuntime) {
    let wanted = Wanted {
        lines: b"quit\n",
        end: PlayEnd::Stopped { requests: 0 },
        written: b"value 1\nat 0 0\nask 0\nstopped after 0 requests\n",
        told: MANY_LABELS,
    };
    assert_board_play(&rt, rt.alloc(), STAR, Side::Labeller, wanted);
}

#[test]
fn a_person_is_told_nothing_without_a_strategy(rt: HostRuntime) {
    let wanted = Wanted {
        lines: b"1\n",
        end: PlayEnd::NoStrategy,
        written: NO_STRATEGY,
        told: b"",
    };
    assert_board_play(&rt, rt.alloc(), THREE_CYCLE, Side::Labeller, wanted);
}

/// A play at the second level of a person who is prompted.
fn climb_play(alloc: Global, lines: &[u8]) -> Prompted {
    let mut lines = Drip::new(lines, PLENTY);
    let (mut output, mut errors) = (writer(), writer());
    let game = AsClimber::of(2);
    let answer = play(alloc, &game, &mut lines, &mut output, true, &mut errors);
    Prompted {
        answer,
        output,
        errors,
    }
}

#[test]
fn a_person_climbs(rt: HostRuntime) {
    let alloc = rt.alloc();
    let written = b"levels 2\nat 0 0\nnot a request\nstopped after 0 requests\n";
    let stopped = PlayEnd::Stopped { requests: 0 };
    assert_prompted(
        &rt,
        || climb_play(alloc, b"2\n"),
        stopped,
        written,
        CLIMBING,
    );
}
