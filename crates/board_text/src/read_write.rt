//! Reading a source to its end, and writing all of a slice.

ghost use Rattle.std.specs.Prelude.{◌≡◌, ◌+◌, ◌<◌, ◌≤◌, length, take, drop, true, false};
ghost use Rattle.std.specs.Prelude.{IfOk, IfErr, OnOk, OnErr, MatchResult};
ghost use Rattle.std.specs.Io.KnownBytes.{IsAtEnd};
ghost use Rattle.board_text.specs.Streams.{AppendsAll, AppendsPrefix, AreAsBefore, GaveAll};
ghost use Rattle.board_text.specs.Streams.{GaveNext, ReadFails, bytes_of};
ghost use Rattle.board_text.specs.ReadFaults.{ReadAllFails};
ghost use Rattle.board_text.specs.declared.read_write.ReadFault.TheVariants as read_faults;

use crate::sink::Sink;
use crate::source::{Failed, Source};
use std::alloc::{AllocError, Allocator};

/// The reason why a source was not read to its end.
#[derive(Clone, Copy, Debug, PartialEq, Eq)]
pub enum ReadFault {
    /// A growth of memory was refused.
    Memory,
    /// The source failed.
    Read,
    /// The source has more bytes than the limit.
    Limit,
}

impl From<AllocError> for ReadFault {
    ghost from_gives = { λ _ fault. fault ≡ read_faults.Memory };

    fn from(_error: AllocError) -> ReadFault {
        ReadFault::Memory
    }
}

const FIRST_READ: usize = 8192;

/// Reads all remaining bytes, at most `limit`. The source must
/// not have failed before, nor reported its end. It alone takes an allocator: with one, each type
/// that holds memory would have a parameter more.
pub fn read_all<A: Allocator, S: Source>(
    alloc: A,
    source: &mut S,
    limit: usize,
) -> Result<Vec<u8, A>, ReadFault>
    requires ready { S.has_failed source.old ≡ false }
    requires unended { S.has_ended source.old ≡ false }
    requires countable { limit < usize.MAX }
    ensures ok { IfOk result (λ bytes. GaveAll (bytes_of S.remaining source.old source.new)
        bytes.items) }
    ensures within { IfOk result (λ bytes. length bytes.items ≤ limit) }
    ensures unfailed { OnOk result (S.has_failed source.new ≡ false) }
    ensures ended { MatchResult result (λ _. S.has_ended source.new ≡ true)
        (λ _. S.has_ended source.new ≡ false) }
    ensures fault { IfErr result (ReadAllFails (bytes_of S.remaining source.old source.new)
        (S.has_failed source.new) limit) }
{
    let mut bytes = Vec::new(alloc);
    let mut filled = 0;
    while filled <= limit {
        make_room(&mut bytes, filled, limit)?;
        match read_at(source, bytes.as_mut_slice(), filled) {
            Ok(0) => {
                bytes.truncate(filled);
                return Ok(bytes);
            }
            Ok(count) => filled += count,
            Err(Failed) => return Err(ReadFault::Read),
        }
    }
    Err(ReadFault::Limit)
}

/// Makes `bytes` longer than `filled`, so that a read finds room: by a quarter if it is full.
fn make_room<A: Allocator>(
    bytes: &mut Vec<u8, A>,
    filled: usize,
    limit: usize,
) -> Result<(), AllocError>
    requires within { filled ≤ length bytes.old.items }
    requires short { length bytes.old.items ≤ limit + 1 }
    requires below { filled ≤ limit }
    requires countable { limit < usize.MAX }
    ensures within { filled ≤ length bytes.new.items }
    ensures short { length bytes.new.items ≤ limit + 1 }
    ensures room { OnOk result (filled < length bytes.new.items) }
    ensures front { take filled bytes.new.items ≡ take filled bytes.old.items }
{
    if filled < bytes.len() {
        return Ok(());
    }
    let longer = filled
        .saturating_add(filled / 4)
        .max(FIRST_READ)
        .min(limit + 1);
    bytes.resize(longer, 0)
}

/// Reads once into `bytes` from `at` on, and returns the number of bytes.
fn read_at<S: Source>(source: &mut S, bytes: &mut [u8], at: usize) -> Result<usize, Failed>
    requires inside { at < length bytes.old }
    requires unfailed { S.has_failed source.old ≡ false }
    requires unended { S.has_ended source.old ≡ false }
    ensures front { take at bytes.new ≡ take at bytes.old }
    ensures fits { IfOk result (λ n. at + n ≤ length bytes.new) }
    ensures given { IfOk result (λ n. GaveNext (bytes_of S.remaining source.old source.new)
        (take n (drop at bytes.new))) }
    ensures end { IfOk result (λ n. n ≡ 0 → IsAtEnd (S.remaining source.new)) }
    ensures kept { OnErr result (AreAsBefore (bytes_of S.remaining source.old source.new)) }
    ensures failed { ReadFails (S.has_failed source.old) (S.has_failed source.new) result }
    ensures ended { MatchResult result
        (λ n. (n ≡ 0 → S.has_ended source.new ≡ true) × (0 < n → S.has_ended source.new ≡ false))
        (λ _. S.has_ended source.new ≡ false) }
{
    source.read(&mut bytes[at..])
}

/// Writes all of `bytes`. The sink must not have failed before.
pub fn write_all<S: Sink>(sink: &mut S, bytes: &[u8]) -> Result<(), Failed>
    requires { S.has_failed sink.old ≡ false }
    ensures ok { OnOk result (AppendsAll (bytes_of S.contents sink.old sink.new) bytes.now) }
    ensures unfailed { OnOk result (S.has_failed sink.new ≡ false) }
    ensures front { OnErr result (AppendsPrefix (bytes_of S.contents sink.old sink.new)
        bytes.now) }
    ensures failed { OnErr result (S.has_failed sink.new ≡ true) }
{
    let mut rest = bytes;
    while !rest.is_empty() {
        match sink.write(rest) {
            Ok(0) => return Err(Failed),
            Ok(count) => rest = &rest[count..],
            Err(Failed) => return Err(Failed),
        }
    }
    Ok(())
}
