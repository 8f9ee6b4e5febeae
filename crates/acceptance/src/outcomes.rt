//! What a run over readers and a writer that are slow, fail, or are refused memory came to, and the
//! assertion of it.

use crate::assertions::{assert_same, assert_text};
use board_text::Sink;
use fakes::{Trickle, once_more};
use runs::RunFault;
use std::fmt::Debug;
use std::process::Abort;

/// More calls than a run of these tests makes.
pub(crate) const PLENTY: usize = 100_000;

pub(crate) const NOTHING: &[u8] = b"";

/// A writer of these tests.
pub(crate) type Writer = Trickle<200>;

/// What a run came to.
#[derive(Drop)]
pub(crate) struct Outcome<T> {
    pub(crate) answer: Result<T, RunFault>,
    /// Whether one of its readers has failed.
    pub(crate) read_failed: bool,
    pub(crate) writer: Writer,
}

/// Asserts the answer of a run and the bytes that it writes. One that was refused memory has
/// written a prefix of `if_refused`, and is made once more.
pub(crate) fn assert_run<T: PartialEq + Debug + Copy, P: Debug + Copy, F: Fn() -> Outcome<T>>(
    rt: &impl Abort,
    place: P,
    run: F,
    wanted: Result<T, RunFault>,
    written: &[u8],
    if_refused: &[u8],
)
    requires { F.IsAlwaysCallable run }
{
    let outcome = run();
    if outcome.answer != Err(RunFault::Memory) {
        return assert_outcome(rt, place, &outcome, wanted, written);
    }
    assert_refused(rt, place, &outcome, if_refused);
    assert_outcome(rt, place, &run(), wanted, written);
}

/// Asserts that a run that was refused memory has written a prefix of this.
pub(crate) fn assert_refused<T: PartialEq + Debug + Copy, P: Debug + Copy>(
    rt: &impl Abort,
    place: P,
    outcome: &Outcome<T>,
    if_refused: &[u8],
) {
    let count = outcome.writer.taken().len();
    let prefix = if_refused.get(..count).unwrap_or(if_refused);
    let refused = Err(RunFault::Memory);
    assert_outcome(rt, (place, "without memory"), outcome, refused, prefix);
}

/// Asserts the answer of a run, the bytes that it has written, and that a reader and the writer
/// have failed exactly if the answer says so.
pub(crate) fn assert_outcome<T: PartialEq + Debug + Copy, P: Debug + Copy>(
    rt: &impl Abort,
    place: P,
    outcome: &Outcome<T>,
    wanted: Result<T, RunFault>,
    written: &[u8],
) {
    assert_same(rt, place, outcome.answer, wanted);
    assert_text(rt, place, outcome.writer.taken(), written);
    let read_failed = wanted == Err(RunFault::Read);
    assert_same(
        rt,
        (place, "a failed read"),
        outcome.read_failed,
        read_failed,
    );
    let write_failed = wanted == Err(RunFault::Write);
    assert_same(
        rt,
        (place, "a failed write"),
        outcome.writer.failed(),
        write_failed,
    );
}

/// Asserts the text that a call gives. A call that was refused memory is made once more.
pub(crate) fn assert_answered<F: Fn() -> Result<String, RunFault>>(
    rt: &impl Abort,
    place: &str,
    call: F,
    wanted: &[u8],
)
    requires { F.IsAlwaysCallable call }
{
    let text = once_more(RunFault::Memory, call).expect(rt, place);
    assert_text(rt, place, text.as_bytes(), wanted);
}
