//! Asking once more if memory was refused.
//!
//! A run of the tests may refuse one growth of memory, whichever. So a call that was refused one is
//! made once more.

/// The answer of `call`, which is asked once more if it answered `refused`: that it was refused
/// memory.
pub fn once_more<T: Drop, E: PartialEq + Copy, F: Fn() -> Result<T, E>>(
    refused: E,
    call: F,
) -> Result<T, E>
    requires { F.IsAlwaysCallable call }
{
    match call() {
        Err(fault) if fault == refused => call(),
        answer => answer,
    }
}
