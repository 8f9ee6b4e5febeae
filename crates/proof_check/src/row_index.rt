//! The rows of a document by the ranks of their configurations.

ghost use Rattle.std.specs.Prelude.{◌≡◌, ℕ, ◌<◌, List, IfOk, MatchOption};
ghost use Rattle.proof_check.specs.Inside.RowIndex.{AreAscending, AreCounts, AreRanked, HasNone};
ghost use Rattle.proof_check.specs.Inside.RowIndex.{IsCountOf, IsRowOf};

use proof_text::Ranked;
use std::alloc::{AllocError, Global};
use std::marker::Model;

/// A row that has a count, by which it is told whether it serves.
pub(crate) trait Counted: Ranked {
    ghost count: { Self → ℕ };

    /// The count of the row.
    fn count(&self) -> u32
        ensures { result ≡ count self.now };
}

/// Below one row per 64 configurations counts are found by binary search, not by a table.
const SEARCHED: usize = 64;

/// Rows that are found by their ranks. Contracts see the rows.
#[derive(Drop)]
pub(crate) struct RowIndex<'a, R: Counted> {
    rows: &'a [R],
    /// At each row's rank its count; elsewhere 0. Empty if the rows are searched.
    counts: Vec<u32>,
}

impl<'a, R: Counted> Model for RowIndex<'a, R> {
    ghost use Rattle.std.specs.Prelude.{List};
    ghost use Rattle.proof_check.specs.Inside.RowIndex.{AreFound};

    ghost Value = { List R };

    ghost view = { λ index. index.rows.now };

    ghost invariant = { λ index. AreFound R.rank R.count index.rows.now index.counts.items };
}

impl<'a, R: Counted> RowIndex<'a, R> {
    /// The index of `rows`, whose ranks ascend and are below `size`.
    pub(crate) fn new(
        alloc: Global,
        size: u32,
        rows: &'a [R],
    ) -> Result<RowIndex<'a, R>, AllocError>
        requires { AreRanked R.rank size rows.now }
        ensures { IfOk result (λ index. index ≡ rows.now) }
    {
        let counts = if rows.len() < size as usize / SEARCHED {
            Vec::new(alloc)
        } else {
            counts_of(alloc, size, rows)?
        };
        Ok(RowIndex { rows, counts })
    }

    /// All rows.
    pub(crate) fn rows(&self) -> &'a [R]
        ensures { result.now ≡ self.now }
    {
        self.rows
    }

    /// The count of the row of `rank`; 0 if there is none.
    #[inline(always)]
    pub(crate) fn count(&self, rank: u32) -> u32
        ensures { 0 < result → IsCountOf R.rank R.count self.now rank result }
    {
        match self.counts.get(rank as usize) {
            Some(count) => *count,
            None => self.searched_count(rank),
        }
    }

    /// The same by a search.
    #[cold]
    #[inline(never)]
    fn searched_count(&self, rank: u32) -> u32
        ensures { 0 < result → IsCountOf R.rank R.count self.now rank result }
    {
        match self.find(rank) {
            Some(row) => row.count(),
            None => 0,
        }
    }

    /// The row of `rank`, if there is one.
    pub(crate) fn find(&self, rank: u32) -> Option<&'a R>
        ensures { MatchOption result (HasNone R.rank self.now rank)
            (λ row. IsRowOf R.rank self.now rank row.now) }
    {
        search(self.rows, rank)
    }
}

/// The row of `rank`, if there is one, among `rows`, whose ranks ascend.
fn search<R: Ranked>(rows: &[R], rank: u32) -> Option<&R>
    requires { AreAscending R.rank rows.now }
    ensures { MatchOption result (HasNone R.rank rows.now rank)
        (λ row. IsRowOf R.rank rows.now rank row.now) }
{
    match rows.binary_search_by_key(&rank, |row| row.rank()) {
        Ok(number) => Some(&rows[number]),
        Err(_) => None,
    }
}

/// The count of each of `rows` at its rank, and elsewhere 0.
fn counts_of<R: Counted>(alloc: Global, size: u32, rows: &[R]) -> Result<Vec<u32>, AllocError>
    requires { AreRanked R.rank size rows.now }
    ensures { IfOk result (λ counts. AreCounts R.rank R.count rows.now counts.items) }
{
    let mut counts = vec![in alloc; 0; size as usize]?;
    for row in rows {
        counts[row.rank() as usize] = row.count();
    }
    Ok(counts)
}
