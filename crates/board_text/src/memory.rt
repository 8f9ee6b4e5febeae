//! A refused growth of memory.

use std::alloc::{AllocError, AllocFailed};

/// A growth of memory was refused, and nothing else went wrong.
///
/// A call that can fail in other ways too has a kind `Memory` among its own faults.
#[derive(Clone, Copy, Debug, PartialEq, Eq)]
pub struct Memory;

impl From<AllocError> for Memory {
    fn from(_error: AllocError) -> Memory {
        Memory
    }
}

impl<T: Drop> From<AllocFailed<T>> for Memory {
    /// The value that there was no room for is dropped.
    fn from(_refused: AllocFailed<T>) -> Memory {
        Memory
    }
}
