//! The words of a round before its first step.

ghost use Rattle.std.specs.Prelude.{◌≡◌, ◌+◌, ◌≤◌, ◌++◌, false, length, vec_capacity, IfOk};
ghost use Rattle.claim_round.specs.Inside.Openings.{AreOpeningWords};

use board_text::Memory;
use graphs::Numbering;
use index_lists::ListStore;
use solver::Solver;
use std::alloc::Global;

/// The word of a configuration without a value.
pub const OPEN: u64 = gap_values::OPEN as u64;

/// The words of a round of `solver` at its opening: the count of each gap, and then the word of
/// each configuration.
pub(crate) fn first_words<S: ListStore, N: Numbering>(
    alloc: Global,
    solver: &Solver<S, N>,
) -> Result<Vec<u64>, Memory>
    requires { solver.now.is_done ≡ false }
    ensures { IfOk result (λ words. AreOpeningWords solver.now words.items) }
{
    let counts = solver.counts();
    let values = solver.words();
    // Room for twice the words, half of it never touched: glibc keeps freed memory for the next
    // round up to twice the largest block that was given back.
    let room = counts.len() + values.len();
    let mut words = Vec::with_capacity(alloc, 2 * room)?;
    append(&mut words, counts);
    append(&mut words, values);
    Ok(words)
}

/// Appends `numbers` to `words`, which has room for them.
fn append(words: &mut Vec<u64>, numbers: &[u32])
    requires { length words.old.items + length numbers.now ≤ vec_capacity words.old }
    ensures items { words.new.items ≡ words.old.items ++ numbers.now }
    ensures capacity { vec_capacity words.new ≡ vec_capacity words.old }
{
    for number in numbers {
        words.push_reserved(u64::from(*number));
    }
}
