//! What a play over a reader and a writer came to, and the assertion of it.

use crate::assertions::{assert_same, assert_text};
use board_text::Sink;
use fakes::Trickle;
use player::{PlayEnd, PlayFault};
use std::fmt::Debug;
use std::process::Abort;

/// More calls than a play of these tests makes.
pub(crate) const PLENTY: usize = 1000;

/// A writer of these tests.
pub(crate) type Writer = Trickle<600>;

/// What a play came to.
#[derive(Drop)]
pub(crate) struct Outcome {
    pub(crate) answer: Result<PlayEnd, PlayFault>,
    pub(crate) read_failed: bool,
    pub(crate) writer: Writer,
}

/// Asserts the answer of a play and the bytes that it writes. One that was refused memory has
/// written a prefix of them, and is played once more.
pub(crate) fn assert_play<P: Debug + Copy, F: Fn() -> Outcome>(
    rt: &impl Abort,
    place: P,
    play: F,
    wanted: Result<PlayEnd, PlayFault>,
    written: &[u8],
)
    requires { F.IsAlwaysCallable play }
{
    let outcome = play();
    if outcome.answer != Err(PlayFault::Memory) {
        return assert_outcome(rt, place, &outcome, wanted, written);
    }
    assert_prefix(rt, place, outcome.writer.taken(), written);
    assert_ends(rt, place, &outcome, Err(PlayFault::Memory));
    assert_outcome(rt, place, &play(), wanted, written);
}

/// Asserts that what a play has written before it was refused memory is a prefix of this.
pub(crate) fn assert_prefix<P: Debug + Copy>(
    rt: &impl Abort,
    place: P,
    found: &[u8],
    written: &[u8],
) {
    let prefix = written.get(..found.len()).unwrap_or(written);
    assert_text(rt, (place, "without memory"), found, prefix);
}

/// Asserts the answer of a play and the bytes that it has written.
fn assert_outcome<P: Debug + Copy>(
    rt: &impl Abort,
    place: P,
    outcome: &Outcome,
    wanted: Result<PlayEnd, PlayFault>,
    written: &[u8],
) {
    assert_same(rt, place, outcome.answer, wanted);
    assert_text(rt, place, outcome.writer.taken(), written);
    assert_ends(rt, place, outcome, wanted);
}

/// Asserts that the reader and the writer have failed exactly if this answer says so.
fn assert_ends<P: Debug + Copy>(
    rt: &impl Abort,
    place: P,
    outcome: &Outcome,
    answer: Result<PlayEnd, PlayFault>,
) {
    let read_failed = answer == Err(PlayFault::Read);
    assert_same(
        rt,
        (place, "a failed read"),
        outcome.read_failed,
        read_failed,
    );
    let write_failed = answer == Err(PlayFault::Write);
    assert_same(
        rt,
        (place, "a failed write"),
        outcome.writer.failed(),
        write_failed,
    );
}
