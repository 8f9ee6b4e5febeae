//! Reading and writing the sections of a document.

ghost use Rattle.std.specs.Prelude.{◌≡◌, ◌<◌, ◌≤◌, ◌+◌, ◌++◌, true, if◌then◌else◌, All, IfOk};
ghost use Rattle.std.specs.Prelude.{IfErr, OnOk, flat_map};
ghost use Rattle.positions.specs.declared.claim.Claim.{Claim as ClaimData};
ghost use Rattle.proof_text.specs.RowForm.{text_of_section};
ghost use Rattle.proof_text.specs.SectionFaults.{InSection};
ghost use Rattle.proof_text.specs.Inside.Rows.{PartRead};

use crate::class_proof::MAX_CLASS_ROWS;
use crate::fault::{ProofFault, ProofKind};
use crate::row_text::{PlaceWords, RowText};
use crate::rows::{BoardOfRows, Row};
use crate::symmetry_proof::MAX_MAPS;
use board_text::line_reader::LineReader;
use positions::Claim;
use std::alloc::{AllocError, Global};

/// Takes a section from `text`, if `claim` asks for it,
/// and returns its rows. Its head is at line `line`.
pub(crate) fn read_part<B: BoardOfRows, R: Row<B>>(
    alloc: Global,
    text: &mut LineReader<'_>,
    board: &B,
    claim: Claim,
    shortest_row: usize,
    line: u32,
) -> Result<Vec<R>, ProofFault>
    requires some_bytes { 0 < shortest_row }
    requires line { line ≤ MAX_CLASS_ROWS + MAX_MAPS + 5 }
    ensures read { IfOk result (λ rows. PartRead
        (R.reading (B.board board.now) claim).form rows.items text.old text.new) }
    ensures few { IfOk result (λ rows. rows.len ≤ MAX_CLASS_ROWS) }
    ensures fault { IfErr result (λ fault. ((R.reading (B.board board.now) claim).form.asked ≡ true)
        × InSection (R.reading (B.board board.now) claim) text.old line fault.line fault.kind) }
{
    if !R::is_asked(claim) {
        return Ok(Vec::new(alloc));
    }
    let Some(count) = text.number_line(R::word().as_bytes(), 0, R::most()) else {
        return Err(ProofFault::at(line, ProofKind::Section));
    };
    // Room is taken for no more rows than the bytes that are left can hold.
    let room = (text.len() / shortest_row).min(count as usize);
    let mut rows = Vec::with_capacity(alloc, room)?;
    let mut least = 0;
    for come in 0..count {
        match R::read(text, board, claim, &mut least) {
            Ok(row) => rows.push(row).map_err(AllocError::from)?,
            Err(kind) => return Err(ProofFault::at(line + 1 + come, kind)),
        }
    }
    Ok(rows)
}

/// Appends the section of `rows`, if `claim` asks for it.
pub(crate) fn write_part<B: BoardOfRows, R: Row<B>>(
    text: &mut RowText,
    words: &PlaceWords,
    board: &B,
    claim: Claim,
    rows: &[R],
) -> Result<(), AllocError>
    requires words { words.now ≡ (B.board board.now).labels }
    requires of_board { All (R.IsOfBoard (B.board board.now)) rows.now }
    ensures { OnOk result (text.new.bytes ≡ text.old.bytes
        ++ text_of_section (R.reading (B.board board.now) claim).form rows.now) }
{
    if !R::is_asked(claim) {
        return Ok(());
    }
    text.push_head(R::word(), rows.len())?;
    write_rows(text, words, board, rows)
}

/// Appends the lines of `rows`.
pub(crate) fn write_rows<B: BoardOfRows, R: Row<B>>(
    text: &mut RowText,
    words: &PlaceWords,
    board: &B,
    rows: &[R],
) -> Result<(), AllocError>
    requires words { words.now ≡ (B.board board.now).labels }
    requires of_board { All (R.IsOfBoard (B.board board.now)) rows.now }
    ensures { OnOk result ((claim : ClaimData)
        → text.new.bytes ≡ text.old.bytes
        ++ flat_map (R.reading (B.board board.now) claim).form.line rows.now) }
{
    for row in rows {
        row.write(text, words, board)?;
    }
    Ok(())
}

/// The number of lines of a section of `rows` rows: 0 unless it is `asked` for.
pub(crate) fn section_lines(asked: bool, rows: usize) -> u32
    requires { rows ≤ MAX_CLASS_ROWS }
    ensures { result ≡ (if asked then 1 + rows else 0) }
{
    if asked { 1 + rows as u32 } else { 0 }
}
