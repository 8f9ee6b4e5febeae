//! The lines of a section's rows, made in parts.

ghost use Rattle.std.specs.Prelude.{◌≡◌, ◌≤◌, ◌++◌, All, IfOk, OnOk, flat_map};
ghost use Rattle.positions.specs.declared.claim.Claim.{Claim as ClaimData};
ghost use Rattle.proof_text.specs.RowForm.{text_of_section};

use crate::printing::size_of_lines;
use crate::row_text::{PlaceWords, RowText};
use crate::rows::{BoardOfRows, Row};
use crate::sections::write_rows;
use positions::Claim;
use rayon::prelude::*;
use std::alloc::{AllocError, Global};
use std::thread::Threads;

/// What the sections of a document are written by, whose lines are made in parts.
#[derive(Clone, Copy)]
pub(crate) struct PartedSections<'a, B> {
    pub(crate) words: &'a PlaceWords,
    pub(crate) board: &'a B,
    pub(crate) claim: Claim,
    pub(crate) parts: u32,
}

impl<B: BoardOfRows + Sync> PartedSections<'_, B> {
    /// Appends the section of `rows`, if the claim asks for it, as `write_part` does.
    pub(crate) fn write<R: Row<B> + Sync>(
        &self,
        rt: &(impl Threads + Sync),
        alloc: Global,
        text: &mut RowText,
        rows: &[R],
    ) -> Result<(), AllocError>
        requires words { self.now.words.now ≡ (B.board self.now.board.now).labels }
        requires of_board { All (R.IsOfBoard (B.board self.now.board.now)) rows.now }
        requires parts { 1 ≤ self.now.parts }
        ensures { OnOk result (text.new.bytes ≡ text.old.bytes
            ++ text_of_section (R.reading (B.board self.now.board.now) self.now.claim).form
            rows.now) }
    {
        if !R::is_asked(self.claim) {
            return Ok(());
        }
        text.push_head(R::word(), rows.len())?;
        for lines in &lines_in_parts(rt, alloc, self.words, self.board, rows, self.parts)? {
            text.push_all(lines)?;
        }
        Ok(())
    }
}

/// The lines of `rows` in at most `parts` parts of consecutive rows, in their order. Threads make
/// them where each has a thousand rows or more to make, and one can be started.
fn lines_in_parts<B: BoardOfRows + Sync, R: Row<B> + Sync>(
    rt: &(impl Threads + Sync),
    alloc: Global,
    words: &PlaceWords,
    board: &B,
    rows: &[R],
    parts: u32,
) -> Result<Vec<RowText>, AllocError>
    requires words { words.now ≡ (B.board board.now).labels }
    requires of_board { All (R.IsOfBoard (B.board board.now)) rows.now }
    requires parts { 1 ≤ parts }
    ensures { IfOk result (λ parts. (claim : ClaimData)
        → flat_map (λ lines. lines.bytes) parts.items
        ≡ flat_map (R.reading (B.board board.now) claim).form.line rows.now) }
{
    let size = rows.len().div_ceil(parts as usize).max(1);
    let lines: Result<Vec<RowText>, AllocError> = rows
        .par_chunks(size)
        .map(
            |part: &[R]| -> Result<RowText, AllocError>
                requires words { words.now ≡ (B.board board.now).labels }
                requires of_board { All (R.IsOfBoard (B.board board.now)) part.now }
                ensures { IfOk result (λ lines. (claim : ClaimData)
                    → lines.bytes
                    ≡ flat_map (R.reading (B.board board.entry.now) claim).form.line part.now) }
            { lines_of(alloc, words, board, part) },
        )
        .collect(rt, alloc)?;
    lines
}

/// The lines of `rows`, as a text of their own.
fn lines_of<B: BoardOfRows, R: Row<B>>(
    alloc: Global,
    words: &PlaceWords,
    board: &B,
    rows: &[R],
) -> Result<RowText, AllocError>
    requires words { words.now ≡ (B.board board.now).labels }
    requires of_board { All (R.IsOfBoard (B.board board.now)) rows.now }
    ensures { IfOk result (λ lines. (claim : ClaimData)
        → lines.bytes ≡ flat_map (R.reading (B.board board.now) claim).form.line rows.now) }
{
    let size = size_of_lines(board, rows.len());
    let mut lines = RowText::new(String::with_capacity(alloc, size)?);
    write_rows(&mut lines, words, board, rows)?;
    Ok(lines)
}
