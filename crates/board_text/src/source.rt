//! Sources of bytes.

ghost use Rattle.std.specs.Prelude.{◌≡◌, ℕ, Bool, false, List, Option, None};
ghost use Rattle.std.specs.Io.{ReadsAtMost};
ghost use Rattle.std.specs.Io.KnownBytes.{ReadConsumes};
ghost use Rattle.board_text.specs.Streams.{ReadFails, TellsEnd};

/// The error of a reader or a writer. Nothing more is known of the failure.
#[derive(Clone, Copy, Debug, PartialEq, Eq)]
pub struct Failed;

/// A source of bytes. A read of 0 bytes into a non-empty slice is the end of input.
///
/// No read is made after a failure or after the end of input.
pub trait Source {
    // The bytes that reads will give from here on, if they are known.
    ghost remaining: { Self → Option (List ℕ) } = { λ _. None };

    // Whether a read has failed so far.
    ghost has_failed: { Self → Bool };

    // Whether a read has reported the end of the input so far.
    ghost has_ended: { Self → Bool };

    fn read(&mut self, into: &mut [u8]) -> Result<usize, Failed>
        requires unfailed { has_failed self.old ≡ false }
        requires unended { has_ended self.old ≡ false }
        ensures bound { ReadsAtMost result into.new }
        ensures bytes { ReadConsumes (remaining self.old) (remaining self.new) result into.new }
        ensures failed { ReadFails (has_failed self.old) (has_failed self.new) result }
        ensures ended { TellsEnd (has_ended self.old) (has_ended self.new) result into.new };

    fn failed(&self) -> bool
        ensures { result ≡ has_failed self.now };
}
