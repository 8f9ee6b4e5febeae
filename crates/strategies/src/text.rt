//! The text of the document of a board, made without a list of its rows.

ghost use Rattle.std.specs.Prelude.{◌≡◌, ◌≤◌, ◌++◌, ◌<◌, ◌^◌, None, IfOk, OnOk, flat_map, sum_by};
ghost use Rattle.board_text.specs.PlainBoard.{IsConfiguration};
ghost use Rattle.positions.specs.Claim.{claim_of};
ghost use Rattle.positions.specs.Ranks.{configurations};
ghost use Rattle.positions.specs.Value.{HasValue};
ghost use Rattle.positions.specs.declared.value.Value.{Value as ValueData};
ghost use Rattle.proof_text.specs.Proof.{asks_adversary as asks_adversary_by};
ghost use Rattle.proof_text.specs.Proof.{asks_labeller as asks_labeller_by};
ghost use Rattle.strategies.specs.DocumentTexts.{IsDocumentText};
ghost use Rattle.strategies.specs.Inside.Lines.{AreLinesIf, adversary_line, labeller_line};
ghost use Rattle.strategies.specs.Inside.Lines.{section_lines_text};
ghost use Rattle.strategies.specs.Inside.Side.{labeller_side, adversary_side};
ghost use Rattle.strategies.specs.Sides.{HasStrategy, claim_for as claim_by};

use crate::gap_moves::GapMoves;
use crate::lines::{Lines, section_lines, section_lines_in_parts};
use crate::rank_moves::RankMoves;
use crate::sides::{asks_adversary, asks_labeller, claim_for};
use board_text::Memory;
use gap_values::ValueTable;
use positions::{MAX_CONFIGURATIONS, Side, Space, Value};
use proof_text::{AdversaryRow, LabellerRow, PlaceWords, RowText, first_lines};
use std::alloc::Global;
use std::thread::Threads;

/// The value of a board's start, and the text of the board's document, in parts that follow one
/// another.
#[derive(Drop)]
pub struct DocumentText {
    pub value: Value,
    pub parts: Vec<Vec<u8>>,
}

/// The text of the document of the board of `moves`, whose configurations and gaps are those of
/// `space`: the bytes that `print` gives of the document that `document` gives.
pub fn document_text<V: ValueTable>(
    alloc: Global,
    moves: &GapMoves<'_, V>,
    space: &Space,
) -> Result<DocumentText, Memory>
    requires same_board { space.now ≡ moves.now }
    ensures value { IfOk result (λ made. HasValue moves.now moves.now.start made.value) }
    ensures text { IfOk result (λ made. IsDocumentText None moves.now
        (flat_map (λ part. part.items) made.parts.items)) }
{
    let ranked = RankMoves::of(alloc, moves, space)?;
    let words = PlaceWords::of(alloc, space.labels())?;
    let value = moves.start_value();
    let labeller = section_lines::<LabellerRow>(alloc, &ranked, &words, value)?;
    let adversary = match value {
        Value::Finite(_) => section_lines::<AdversaryRow>(alloc, &ranked, &words, value)?,
        Value::Forever => Vec::new(alloc),
    };
    ranked.text_of(alloc, value, None, labeller, adversary)
}

/// The same for `side` alone, or for both: the rows of `side`, and the part of the claim that they
/// show. The lines of each section are made in at most `parts` parts, by threads if the board has
/// many configurations.
///
/// The adversary can't be asked for alone if requests are answered for ever from the start.
pub fn document_text_in_parts<V: ValueTable>(
    rt: &(impl Threads + Sync),
    alloc: Global,
    moves: &GapMoves<'_, V>,
    space: &Space,
    side: Option<Side>,
    parts: u32,
) -> Result<DocumentText, Memory>
    requires same_board { space.now ≡ moves.now }
    requires strategy { (value : ValueData)
        → HasValue moves.now moves.now.start value → HasStrategy side value }
    requires parts { 1 ≤ parts }
    ensures value { IfOk result (λ made. HasValue moves.now moves.now.start made.value) }
    ensures text { IfOk result (λ made. IsDocumentText side moves.now
        (flat_map (λ part. part.items) made.parts.items)) }
{
    let ranked = RankMoves::of(alloc, moves, space)?;
    let words = PlaceWords::of(alloc, space.labels())?;
    let value = moves.start_value();
    let claim = claim_for(side, value);
    let labeller = if asks_labeller(claim) {
        section_lines_in_parts::<LabellerRow>(rt, alloc, &ranked, &words, value, parts)?
    } else {
        Vec::new(alloc)
    };
    let adversary = if asks_adversary(claim) {
        section_lines_in_parts::<AdversaryRow>(rt, alloc, &ranked, &words, value, parts)?
    } else {
        Vec::new(alloc)
    };
    ranked.text_of(alloc, value, side, labeller, adversary)
}

impl RankMoves<'_> {
    /// The text of the document of the board, whose start has the value `value`, for `side` alone
    /// or for both, with the lines of the rows of each side that it has.
    fn text_of(
        &self,
        alloc: Global,
        value: Value,
        side: Option<Side>,
        labeller: Vec<Lines>,
        adversary: Vec<Lines>,
    ) -> Result<DocumentText, Memory>
        requires value { HasValue self.now self.now.start value }
        requires strategy { HasStrategy side value }
        requires start { IsConfiguration self.now self.now.start }
        requires few { configurations self.now ≤ MAX_CONFIGURATIONS }
        requires labeller { AreLinesIf (asks_labeller_by (claim_by side (claim_of value))) self.now
            (labeller_side self.now value) (labeller_line self.now) labeller.items }
        requires adversary { AreLinesIf (asks_adversary_by (claim_by side (claim_of value)))
            self.now (adversary_side self.now value) (adversary_line self.now) adversary.items }
        ensures value { IfOk result (λ made. made.value ≡ value) }
        ensures text { IfOk result (λ made. IsDocumentText side self.now
            (flat_map (λ part. part.items) made.parts.items)) }
    {
        let claim = claim_for(side, value);
        let mut parts = Vec::new(alloc);
        parts.push(first_lines(alloc, claim)?.finish()?)?;
        if asks_labeller(claim) {
            add_section(alloc, &mut parts, "labeller", labeller)?;
        }
        if asks_adversary(claim) {
            add_section(alloc, &mut parts, "adversary", adversary)?;
        }
        let mut end = RowText::new(String::new(alloc));
        end.push_end()?;
        parts.push(end.finish()?)?;
        Ok(DocumentText { value, parts })
    }
}

/// Adds the first line of the section with the word `word`, and the section's `lines`, to `parts`.
fn add_section(
    alloc: Global,
    parts: &mut Vec<Vec<u8>>,
    word: &str,
    lines: Vec<Lines>,
) -> Result<(), Memory>
    requires few { sum_by (λ part. part.rows) lines.items < 2 ^ 32 }
    ensures { OnOk result (flat_map (λ part. part.items) parts.new.items
        ≡ flat_map (λ part. part.items) parts.old.items
        ++ section_lines_text word.now lines.items) }
{
    let mut head = RowText::new(String::new(alloc));
    head.push_head(word, count_rows(&lines) as usize)?;
    parts.push(head.finish()?)?;
    for part in lines {
        parts.push(part.bytes)?;
    }
    Ok(())
}

/// The number of rows of all `parts`.
fn count_rows(parts: &[Lines]) -> u32
    requires { sum_by (λ part. part.rows) parts.now < 2 ^ 32 }
    ensures { result ≡ sum_by (λ part. part.rows) parts.now }
{
    let mut rows = 0;
    for part in parts {
        rows += part.rows;
    }
    rows
}
