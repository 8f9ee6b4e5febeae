//! Sinks of bytes.

ghost use Rattle.std.specs.Prelude.{◌≡◌, ℕ, Bool, List, Option, None};
ghost use Rattle.std.specs.Io.{WritesAtMost};
ghost use Rattle.std.specs.Io.KnownBytes.{WriteAppends};
ghost use Rattle.board_text.specs.Streams.{WriteFails};

use crate::source::Failed;

/// A sink of bytes. A write that takes no byte of a non-empty slice has failed.
pub trait Sink {
    // The bytes that writes have given so far, if they are known.
    ghost contents: { Self → Option (List ℕ) } = { λ _. None };

    // Whether a write has failed so far.
    ghost has_failed: { Self → Bool };

    fn write(&mut self, from: &[u8]) -> Result<usize, Failed>
        ensures bound { WritesAtMost result from.now }
        ensures bytes { WriteAppends (contents self.old) (contents self.new) result from.now }
        ensures failed { WriteFails (has_failed self.old) (has_failed self.new) result from.now };

    fn failed(&self) -> bool
        ensures { result ≡ has_failed self.now };
}
