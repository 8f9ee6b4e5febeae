//! Reading and writing whole texts, through readers and writers that are slow, fail and end.
//!
//! A run of the tests may refuse one growth of memory, whichever. So a call that was refused one is
//! made once more.

ghost use Rattle.std.specs.Prelude.{◌≡◌, ◌<◌, false, IfErr};

use crate::assertions::{assert_same, assert_text};
use board_text::{Failed, ReadFault, Sink, Source, Through, read_all, write_all};
use fakes::{Broken, Drip, Failing, Interrupted, Trickle};
use std::alloc::{AllocError, Global};
use std::io::{Cursor, Read, Write};
use std::process::Abort;

const TEXT: &[u8] = b"board 1\nlabels 1\n";

const PLENTY: usize = 100_000;

/// Asserts that the bytes of the reader are this text, if all of them are read.
fn read_text<S: Source>(
    rt: &impl Abort,
    alloc: Global,
    reader: &mut S,
    limit: usize,
    text: &[u8],
) -> Result<(), ReadFault>
    requires unfailed { S.has_failed reader.old ≡ false }
    requires unended { S.has_ended reader.old ≡ false }
    requires limit { limit < usize.MAX }
    ensures unended { IfErr result (λ _. S.has_ended reader.new ≡ false) }
{
    let bytes = read_all(alloc, reader, limit)?;
    assert_text(rt, ("limit", limit), bytes.as_slice(), text);
    Ok(())
}

/// The answer of a slow reader of the text, and whether it has failed.
fn read_slowly(
    rt: &impl Abort,
    alloc: Global,
    good_calls: usize,
    limit: usize,
) -> (Result<(), ReadFault>, bool)
    requires { limit < usize.MAX }
{
    let mut reader = Drip::new(TEXT, good_calls);
    let mut answer = read_text(rt, alloc, &mut reader, limit, TEXT);
    if answer == Err(ReadFault::Memory) {
        reader = Drip::new(TEXT, good_calls);
        answer = read_text(rt, alloc, &mut reader, limit, TEXT);
    }
    (answer, reader.failed())
}

/// The answer of a reader that gives the text at once.
fn read_at_once(rt: &impl Abort, alloc: Global, text: &[u8], limit: usize) -> Result<(), ReadFault>
    requires { limit < usize.MAX }
{
    match read_text(rt, alloc, &mut Through::new(text), limit, text) {
        Err(ReadFault::Memory) => read_text(rt, alloc, &mut Through::new(text), limit, text),
        answer => answer,
    }
}

#[test]
fn reads_of_one_byte(rt: HostRuntime) {
    for good_calls in 0..TEXT.len() + 1 {
        let answer = read_slowly(&rt, rt.alloc(), good_calls, PLENTY);
        assert_same(&rt, good_calls, answer, (Err(ReadFault::Read), true));
    }
    let calls = TEXT.len() + 1;
    let answers = [
        read_slowly(&rt, rt.alloc(), calls, PLENTY),
        read_slowly(&rt, rt.alloc(), calls, TEXT.len()),
        read_slowly(&rt, rt.alloc(), calls, TEXT.len() - 1),
        read_slowly(&rt, rt.alloc(), calls, 0),
    ];
    let limit = (Err(ReadFault::Limit), false);
    assert_eq!(rt; answers, [(Ok(()), false), (Ok(()), false), limit, limit]);
}

#[test]
fn reads_of_many_bytes(rt: HostRuntime) -> Result<(), AllocError> {
    let text = vec![in rt.alloc(); 7; 20_000].or_else(|_| vec![in rt.alloc(); 7; 20_000])?;
    let text = text.as_slice();
    let answers = [
        read_at_once(&rt, rt.alloc(), text, PLENTY),
        read_at_once(&rt, rt.alloc(), text, 20_000),
        read_at_once(&rt, rt.alloc(), text, 19_999),
        read_at_once(&rt, rt.alloc(), &[], 0),
    ];
    assert_eq!(rt; answers, [Ok(()), Ok(()), Err(ReadFault::Limit), Ok(())]);
    Ok(())
}

/// Asserts that no read follows the first error of a reader of std, whatever that error is. If
/// memory is refused, nothing was read yet.
fn assert_first_error_fails<R: Read + Drop>(rt: &impl Abort, alloc: Global, inner: R) {
    let mut reader = Through::new(inner);
    assert!(rt; !Source::failed(&reader));
    let mut answer = read_text(rt, alloc, &mut reader, PLENTY, TEXT);
    if answer == Err(ReadFault::Memory) {
        assert!(rt; !Source::failed(&reader));
        answer = read_text(rt, alloc, &mut reader, PLENTY, TEXT);
    }
    assert_eq!(rt; answer, Err(ReadFault::Read));
    assert!(rt; Source::failed(&reader));
}

#[test]
fn failing_readers_of_std(rt: HostRuntime) {
    assert_first_error_fails(&rt, rt.alloc(), Broken);
    assert_first_error_fails(&rt, rt.alloc(), Interrupted::new(TEXT));
}

/// Asserts the answer of a slow writer to a text, and the bytes of it that the writer has taken
/// then.
fn assert_written_slowly(
    rt: &impl Abort,
    good_calls: usize,
    failing: Failing,
    text: &[u8],
    wanted: (Result<(), Failed>, bool),
    taken: &[u8],
) {
    let mut writer: Trickle<32> = Trickle::new(good_calls, failing);
    let answer = write_all(&mut writer, text);
    assert_same(rt, good_calls, (answer, writer.failed()), wanted);
    assert_text(rt, good_calls, writer.taken(), taken);
}

#[test]
fn writes_of_one_byte(rt: HostRuntime) {
    for failing in [Failing::Refuses, Failing::TakesNothing] {
        for good_calls in 0..TEXT.len() {
            let taken = &TEXT[..good_calls];
            assert_written_slowly(&rt, good_calls, failing, TEXT, (Err(Failed), true), taken);
        }
        assert_written_slowly(&rt, TEXT.len(), failing, TEXT, (Ok(()), false), TEXT);
    }
    assert_written_slowly(&rt, 0, Failing::Refuses, &[], (Ok(()), false), &[]);
}

/// The answer of a writer of std to the text, whether it has failed then, and the writer.
fn write_through<W: Write + Drop>(inner: W) -> (Result<(), Failed>, bool, W) {
    let mut writer = Through::new(inner);
    let answer = write_all(&mut writer, TEXT);
    (answer, Sink::failed(&writer), writer.into_inner())
}

#[test]
fn writers_of_std(rt: HostRuntime) {
    let (answer, has_failed, _) = write_through(Broken);
    assert_same(
        &rt,
        "a broken writer",
        (answer, has_failed),
        (Err(Failed), true),
    );
    let (answer, has_failed, _) = write_through(Cursor::new([0; 16]));
    assert_same(
        &rt,
        "too little room",
        (answer, has_failed),
        (Err(Failed), true),
    );
    let (answer, has_failed, cursor) = write_through(Cursor::new([0; 17]));
    assert_same(&rt, "room enough", (answer, has_failed), (Ok(()), false));
    let bytes = cursor.into_inner();
    assert_text(&rt, "room enough", bytes.as_slice(), TEXT);
}
