//! Rows of a document, checked in parallel.

ghost use Rattle.std.specs.Prelude.{IsSome, MatchBool, MatchOption};
ghost use Rattle.std.specs.List.{All};
ghost use Rattle.proof_check.specs.FirstFaults.{FirstFault};

use rayon::prelude::*;
use std::thread::Threads;

/// A row of a document, as a checker `C` checks it. Its fault is an `F`.
pub(crate) trait CheckedRow<C, F> {
    ghost is_ready: { C → Self → Type 0 };

    ghost meets: { C → Self → Type 0 };

    ghost is_wrong: { C → Self → F → Type 0 };

    /// The fault of the row, if it has one.
    fn fault(&self, checker: &C) -> Option<F>
        requires { is_ready checker.now self.now }
        ensures fault { MatchOption result (meets checker.now self.now)
            (is_wrong checker.now self.now) }
        ensures faulty { IsSome result → ¬ meets checker.now self.now };
}

/// The fault of the first faulty row of `rows`, if there is one. The rows are checked in parallel,
/// and that row once more, so that no fault is carried out of a thread.
pub(crate) fn first_fault<C: Sync, F: Copy + Sync, R: CheckedRow<C, F> + Sync>(
    rt: &(impl Threads + Sync),
    checker: &C,
    rows: &[R],
) -> Option<F>
    requires { All (R.is_ready checker.now) rows.now }
    ensures { MatchOption result (All (R.meets checker.now) rows.now)
        (FirstFault (R.meets checker.now) (R.is_wrong checker.now) rows.now) }
{
    let faulty = rows.par_iter().find_first(
        rt,
        |row: &&R| -> bool
            requires { R.is_ready checker.now row.now.now }
            ensures { MatchBool result (¬ R.meets checker.entry.now row.now.now)
                (R.meets checker.entry.now row.now.now) }
        { row.fault(checker).is_some() },
    );
    faulty?.fault(checker)
}
