//! A source that keeps the first bytes that it gave and counts all of them, so that a fault of an
//! input can be explained.

ghost use Rattle.std.specs.Prelude.{◌≡◌};

use board_text::{Failed, Source};
use runs::MAX_BOARD_BYTES;
use std::alloc::Global;

/// The number of first bytes that are kept: all of a board.
const KEPT_BYTES: usize = MAX_BOARD_BYTES;

/// A source, and the bytes that it gave so far: the first of them, and their number. Standard input
/// can't be watched so, since a reader that holds a borrowed one could exchange it; a joined check
/// keeps its text instead.
#[derive(Drop)]
pub(crate) struct Watched<S> {
    source: S,
    text: Vec<u8>,
    /// Whether bytes are kept, if there is room.
    keeps: bool,
    count: usize,
}

impl<S> Watched<S> {
    /// Watches a source of which nothing was read yet. Bytes are kept if `keeps` says so.
    pub(crate) fn new(alloc: Global, source: S, keeps: bool) -> Watched<S>
        ensures { result.source ≡ source }
    {
        Watched {
            source,
            text: Vec::new(alloc),
            keeps,
            count: 0,
        }
    }

    /// The first bytes that were read, as far as they were kept.
    pub(crate) fn text(&self) -> &[u8] {
        self.text.as_slice()
    }

    /// The number of bytes that were read.
    pub(crate) fn count(&self) -> usize {
        self.count
    }

    /// Counts `bytes`, and keeps them as far as there is room. After memory for them was refused
    /// none are kept.
    fn keep(&mut self, bytes: &[u8])
        ensures { self.new.source ≡ self.old.source }
    {
        self.count = self.count.saturating_add(bytes.len());
        if self.keeps {
            let room = KEPT_BYTES.saturating_sub(self.text.len());
            let kept = &bytes[..bytes.len().min(room)];
            self.keeps = self.text.extend_from_slice(kept).is_ok();
        }
    }
}

impl<S: Source> Source for Watched<S> {
    ghost remaining = { λ watched. S.remaining watched.source };

    ghost has_failed = { λ watched. S.has_failed watched.source };

    ghost has_ended = { λ watched. S.has_ended watched.source };

    fn read(&mut self, into: &mut [u8]) -> Result<usize, Failed> {
        let count = self.source.read(into)?;
        self.keep(&into[..count]);
        Ok(count)
    }

    fn failed(&self) -> bool {
        self.source.failed()
    }
}
