//! Readers and writers that give and take one byte a call, and fail when they are told to.

ghost use Rattle.std.specs.Prelude.{◌≡◌, ◌≤◌, Some, take, false};

use board_text::{Failed, Sink, Source};
use std::io;

/// Gives one byte a call. Once its good calls are used up, a call fails.
#[derive(Drop)]
pub struct Drip<'a> {
    rest: &'a [u8],
    good_calls: usize,
    has_failed: bool,
    has_ended: bool,
}

impl<'a> Drip<'a> {
    pub fn new(rest: &'a [u8], good_calls: usize) -> Drip<'a>
        ensures { result ≡ record {
          rest = rest.entry;
          good_calls = good_calls;
          has_failed = false;
          has_ended = false;
        } }
    {
        Drip {
            rest,
            good_calls,
            has_failed: false,
            has_ended: false,
        }
    }

    /// The bytes that it hasn't given yet.
    pub fn rest(&self) -> &'a [u8] {
        self.rest
    }
}

impl Source for Drip<'_> {
    ghost remaining = { λ s. Some s.rest.now };

    ghost has_failed = { λ s. s.has_failed };

    ghost has_ended = { λ s. s.has_ended };

    fn read(&mut self, into: &mut [u8]) -> Result<usize, Failed> {
        if self.good_calls == 0 {
            self.has_failed = true;
            return Err(Failed);
        }
        self.good_calls -= 1;
        if into.is_empty() {
            return Ok(0);
        }
        if self.rest.is_empty() {
            self.has_ended = true;
            return Ok(0);
        }
        into[0] = self.rest[0];
        self.rest = &self.rest[1..];
        Ok(1)
    }

    fn failed(&self) -> bool {
        self.has_failed
    }
}

/// How a writer fails.
#[derive(Clone, Copy, PartialEq, Eq)]
pub enum Failing {
    /// It answers an error.
    Refuses,
    /// It takes nothing.
    TakesNothing,
}

/// Takes one byte a call, at most `ROOM` in all. Once its good calls or its room are used up, a
/// call fails.
#[derive(Drop)]
pub struct Trickle<const ROOM: usize> {
    bytes: [u8; ROOM],
    count: usize,
    good_calls: usize,
    failing: Failing,
    has_failed: bool,
    ghost fits: { count ≤ ROOM },
}

impl<const ROOM: usize> Trickle<ROOM> {
    pub fn new(good_calls: usize, failing: Failing) -> Trickle<ROOM>
        ensures unfailed { result.has_failed ≡ false }
        ensures empty { result.count ≡ 0 }
    {
        Trickle {
            bytes: [0; ROOM],
            count: 0,
            good_calls,
            failing,
            has_failed: false,
        }
    }

    /// The bytes that it has taken.
    pub fn taken(&self) -> &[u8] {
        &self.bytes[..self.count]
    }
}

impl<const ROOM: usize> Sink for Trickle<ROOM> {
    ghost contents = { λ s. Some (take s.count s.bytes) };

    ghost has_failed = { λ s. s.has_failed };

    fn write(&mut self, from: &[u8]) -> Result<usize, Failed> {
        if from.is_empty() {
            return Ok(0);
        }
        if self.good_calls == 0 || self.count == ROOM {
            self.has_failed = true;
            return match self.failing {
                Failing::Refuses => Err(Failed),
                Failing::TakesNothing => Ok(0),
            };
        }
        self.good_calls -= 1;
        self.bytes[self.count] = from[0];
        self.count += 1;
        Ok(1)
    }

    fn failed(&self) -> bool {
        self.has_failed
    }
}

/// A reader and a writer of std that only fails.
#[derive(Drop)]
pub struct Broken;

impl io::Read for Broken {
    fn read(&mut self, _into: &mut [u8]) -> io::Result<usize> {
        Err(io::Error::from(io::ErrorKind::ConnectionReset))
    }
}

impl io::Write for Broken {
    fn write(&mut self, _from: &[u8]) -> io::Result<usize> {
        Err(io::Error::from(io::ErrorKind::ConnectionReset))
    }

    fn flush(&mut self) -> io::Result<()> {
        Ok(())
    }
}

/// A reader of std that fails at its first call, and gives its bytes from the second on.
#[derive(Drop)]
pub struct Interrupted<'a> {
    rest: &'a [u8],
    has_failed: bool,
}

impl<'a> Interrupted<'a> {
    pub fn new(rest: &'a [u8]) -> Interrupted<'a>
        ensures { result ≡ record { rest = rest.entry; has_failed = false } }
    {
        Interrupted {
            rest,
            has_failed: false,
        }
    }
}

impl io::Read for Interrupted<'_> {
    fn read(&mut self, into: &mut [u8]) -> io::Result<usize> {
        if !self.has_failed {
            self.has_failed = true;
            return Err(io::Error::from(io::ErrorKind::Interrupted));
        }
        self.rest.read(into)
    }
}
